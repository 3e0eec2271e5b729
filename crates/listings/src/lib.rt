// The listing: what a book sheet and a task sheet say of a plan, as text.
#![tactic(auto)]

ghost use Rattle.listings.specs.Listings.{Listed, OneText};

use sheets::TooShort;

mod lines;
mod making;
mod page;
mod writing;

// Writes the listing of the two sheets at the front of the buffer, and answers its length. Where the buffer is shorter,
// the length is named and nothing is written.
pub fn list(book: &[u8], task: &[u8], out: &mut [u8]) -> Result<usize, TooShort>
    ensures { Listed book.now task.now out.old result out.new }
{
    let listing = making::read(book, task);
    let needed = writing::put_listing(&mut [], &listing);
    if out.len() < needed {
        return Err(TooShort { needed });
    }
    writing::put_listing(out, &listing);
    Ok(needed)
}

// No two texts list the same sheets.
pub fn sheets_have_one_text()
    ensures { OneText }
{}
