ghost use Rattle.std.specs.Prelude.{◌≡◌, ℕ, ◌+◌, ◌*◌, ◌<◌, ◌≤◌, false, [], ◌∷◌, ◌++◌, length, drop, MatchOption};
ghost use Rattle.books.specs.Book.{Facts};
ghost use Rattle.books.specs.Listed.{members};
ghost use Rattle.facts.specs.Sets.{Next};
ghost use Rattle.sheets.specs.Fields.{four, twos};
ghost use Rattle.sheets.specs.Writers.{Room, Writes as WritesBytes};
ghost use Rattle.book_sheets.specs.Content.{step_in, lists_of};
ghost use Rattle.book_writer.specs.Parts.{Tells, SizesOf, header_of, rows_of, lists_in};
ghost use Rattle.book_writer.specs.Writing.{bytes_of, Writes, Means, Again};

use books::Book;
use sheets::{TooShort, Writer};

// How many facts below `facts` there are for which `is_in` answers yes.
fn count_facts<F: Fn(usize) -> bool>(facts: usize, is_in: F) -> u8
    requires callable { F.IsAlwaysCallable is_in }
    requires few { (set : Facts) × Tells (F.post is_in) facts set × length (members set facts) ≤ 250 }
    ensures { (set : Facts) → Tells (F.post is_in) facts set → result ≡ length (members set facts) }
{
    let mut n = 0;
    for p in 0..facts {
        if is_in(p) {
            n += 1;
        }
    }
    n
}

// How many facts a step needs, adds and deletes.
#[derive(Clone, Copy)]
struct Sizes {
    needs: u8,
    adds: u8,
    deletes: u8,
}

impl Sizes {
    // The sizes of step `a`.
    fn of<B: Book>(book: &B, a: usize) -> Sizes
        ensures { SizesOf (step_in (B.model book.now) a) result }
    {
        let facts = book.facts();
        Sizes {
            needs: count_facts(facts, |p| book.needs(a, p)),
            adds: count_facts(facts, |p| book.adds(a, p)),
            deletes: count_facts(facts, |p| book.deletes(a, p)),
        }
    }

    // How many bytes the lists of the step take.
    fn bytes(self) -> usize
        ensures is { result ≡ 2 * self.needs + 2 * self.adds + 2 * self.deletes }
        ensures few { result ≤ 1530 }
    {
        2 * self.needs as usize + 2 * self.adds as usize + 2 * self.deletes as usize
    }
}

// The length of the book's sheet, which opens and means the book.
fn sheet_length<B: Book>(book: &B) -> usize
    ensures is { result ≡ length (bytes_of (B.model book.now)) }
    ensures means { Means (bytes_of (B.model book.now)) (B.model book.now) }
    ensures again { Again }
{
    let steps = book.steps();
    let mut length = 12 + 11 * steps;
    for a in 0..steps {
        length += Sizes::of(book, a).bytes();
    }
    length
}

// Writes the header.
fn put_header<B: Book>(out: &mut Writer<'_>, book: &B)
    requires { Room out.old 12 }
    ensures { WritesBytes out.old (header_of (B.model book.now)) out.new }
{
    let steps = book.steps();
    out.put(book.facts() as u16);
    out.put(steps as u16);
    out.put(12u32);
    out.put((12 + 11 * steps) as u32);
}

// Writes the row of a step whose lists begin at byte `lists`.
fn put_row(out: &mut Writer<'_>, lists: u32, seconds: u32, sizes: Sizes)
    requires { Room out.old 11 }
    ensures { WritesBytes out.old (four lists ++ (four seconds ++ (sizes.needs ∷ sizes.adds ∷ sizes.deletes ∷ []))) out.new }
{
    out.put(lists);
    out.put(seconds);
    out.put_bytes(&[sizes.needs, sizes.adds, sizes.deletes]);
}

// Writes the rows of all steps.
fn put_rows<B: Book>(out: &mut Writer<'_>, book: &B)
    requires { Room out.old (11 * (B.model book.now).steps) }
    ensures { WritesBytes out.old (rows_of (B.model book.now)) out.new }
{
    let steps = book.steps();
    let mut lists = 12 + 11 * steps;
    for a in 0..steps {
        let sizes = Sizes::of(book, a);
        put_row(out, lists as u32, book.seconds(a), sizes);
        lists += sizes.bytes();
    }
}

// The first fact from `from` on, below `facts`, for which `is_in` answers yes. The loop writes nothing, so what the
// answers ask of the step alone can be done once before it.
fn next_fact<F: Fn(usize) -> bool>(from: usize, facts: usize, is_in: &F) -> Option<usize>
    requires { F.IsAlwaysCallable is_in.now }
    ensures { (set : Facts) → Tells (F.post is_in.now) facts set → MatchOption result ((q : ℕ) → from ≤ q → q < facts → set q ≡ false) (λ p. (p < facts) × Next set from p) }
{
    for p in from..facts {
        if is_in(p) {
            return Some(p);
        }
    }
    None
}

// Writes the facts below `facts` for which `is_in` answers yes, two bytes for each.
fn put_facts<F: Fn(usize) -> bool>(out: &mut Writer<'_>, facts: usize, is_in: F)
    requires callable { F.IsAlwaysCallable is_in }
    requires few { facts ≤ 1024 }
    requires room { (set : Facts) × Tells (F.post is_in) facts set × Room out.old (2 * length (members set facts)) }
    ensures { (set : Facts) → Tells (F.post is_in) facts set → WritesBytes out.old (twos (members set facts)) out.new }
{
    let mut from = 0;
    while let Some(p) = next_fact(from, facts, &is_in) {
        out.put(p as u16);
        from = p + 1;
    }
}

// Writes the lists of step `a`.
fn put_lists<B: Book>(out: &mut Writer<'_>, book: &B, a: usize)
    requires { Room out.old (length (lists_of (step_in (B.model book.now) a))) }
    ensures { WritesBytes out.old (lists_of (step_in (B.model book.now) a)) out.new }
{
    let facts = book.facts();
    put_facts(out, facts, |p| book.needs(a, p));
    put_facts(out, facts, |p| book.adds(a, p));
    put_facts(out, facts, |p| book.deletes(a, p));
}

// Writes the lists of all steps.
fn put_all_lists<B: Book>(out: &mut Writer<'_>, book: &B)
    requires { Room out.old (length (lists_in (B.model book.now))) }
    ensures { WritesBytes out.old (lists_in (B.model book.now)) out.new }
{
    for a in 0..book.steps() {
        put_lists(out, book, a);
    }
}

// Writes the whole sheet at the front of the buffer.
fn put_sheet<B: Book>(out: &mut [u8], book: &B)
    requires { length (bytes_of (B.model book.now)) ≤ length out.old }
    ensures { out.new ≡ bytes_of (B.model book.now) ++ drop (length (bytes_of (B.model book.now))) out.old }
{
    let mut writer = Writer::new(out);
    put_header(&mut writer, book);
    put_rows(&mut writer, book);
    put_all_lists(&mut writer, book);
}

// Writes the sheet of the book at the front of the buffer, and answers its length. The sheet opens and means the book.
pub fn write_book<B: Book>(book: &B, out: &mut [u8]) -> Result<usize, TooShort>
    ensures writes { Writes (B.model book.now) out.old result out.new }
    ensures means { Means (bytes_of (B.model book.now)) (B.model book.now) }
    ensures again { Again }
{
    let needed = sheet_length(book);
    if out.len() < needed {
        return Err(TooShort { needed });
    }
    put_sheet(out, book);
    Ok(needed)
}

#[cfg(test)]
mod tests {
    use super::*;
    use book_sheets::BookSheet;

    // Three facts and one step of 60 seconds, that needs 0 and 2, adds 1 and deletes 2.
    const ONE: [u8; 31] = [
        0, 3, 0, 1, 0, 0, 0, 12, 0, 0, 0, 23, 0, 0, 0, 23, 0, 0, 0, 60, 2, 1, 1, 0, 0, 0, 2, 0, 1,
        0, 2,
    ];

    #[test]
    fn writes_the_same_bytes(rt: HostRuntime) {
        let mut sheet = BookSheet::new();
        assert!(rt; sheet.open(&ONE).is_ok());
        let mut out = [9; 33];
        assert_eq!(rt; write_book(&sheet, &mut out), Ok(31));
        assert_eq!(rt; &out[0..31], &ONE[0..31]);
        assert_eq!(rt; &out[31..33], [9, 9].as_slice());
    }

    #[test]
    fn names_the_needed_length(rt: HostRuntime) {
        let mut sheet = BookSheet::new();
        assert!(rt; sheet.open(&ONE).is_ok());
        let mut out = [9; 30];
        assert_eq!(rt; write_book(&sheet, &mut out), Err(TooShort { needed: 31 }));
        assert_eq!(rt; out, [9; 30]);
    }
}
