// A listing put into a lent buffer.
ghost use Rattle.std.specs.Prelude.{◌≡◌, ◌<◌, ◌≤◌, slice_index_or};
ghost use Rattle.checks.specs.Tables.{blank};
ghost use Rattle.decimals.specs.Texts.{Puts, PutsText};
ghost use Rattle.listings.specs.Shown.{place_lines, shown_text};
ghost use Rattle.listings.specs.Pages.{shown_on, head_of, row_of, list_number, text_of};

use crate::lines::{Head, Row, put_head, put_refused, put_row};
use crate::page::{ListFault, Page};
use checks::Place;
use sheets::Writer;

impl Page {
    // What the first line shows.
    fn head(&self) -> Head
        ensures { result ≡ head_of (shown_on self.now) }
    {
        Head {
            places: self.plan.count(),
            levels: self.levels,
            strata: self.strata.count as usize,
            seconds: self.end.count as usize,
        }
    }

    // What the line of the place with number `v` shows.
    fn row(&self, v: usize, place: Place) -> Row
        requires inside { v < self.now.plan.count }
        requires listed { place ≡ slice_index_or self.now.plan.places v blank }
        ensures { result ≡ row_of (shown_on self.now) v }
    {
        Row {
            place: v,
            step: place.step,
            level: place.level,
            stratum: self.stratum[v].count as usize,
            begin: self.begins[v].count as usize,
        }
    }
}

impl ListFault {
    // The refusal's number on the list of all refusals.
    fn number(&self) -> u8
        ensures { result ≡ list_number self.now }
    {
        match self {
            ListFault::TooLong(fault) => fault.number(),
            ListFault::Plan(fault) => fault.number(),
        }
    }
}

// Puts the lines of the places.
fn put_rows(writer: &mut Writer, page: &Page)
    requires { writer.old.at ≤ 113 }
    ensures { PutsText writer.old (place_lines (shown_on page.now) page.now.plan.count) writer.new }
{
    for (v, place) in page.plan.places().iter().enumerate() {
        put_row(writer, page.row(v, *place));
    }
}

// Puts the lines of a plan.
fn put_page(writer: &mut Writer, page: &Page)
    requires { writer.old.at ≡ 0 }
    ensures { PutsText writer.old (shown_text (shown_on page.now)) writer.new }
{
    put_head(writer, page.head());
    put_rows(writer, page);
}

// Puts a listing, a plan's page or why there is none, at the front where the buffer has room for it, and answers its
// length either way.
pub(crate) fn put_listing(out: &mut [u8], listing: &Result<Page, ListFault>) -> usize
    ensures { Puts out.old 0 (text_of listing.now) out.new result }
{
    let mut writer = Writer::new(out);
    match listing {
        Ok(page) => put_page(&mut writer, page),
        Err(fault) => put_refused(&mut writer, usize::from(fault.number())),
    }
    writer.place()
}
