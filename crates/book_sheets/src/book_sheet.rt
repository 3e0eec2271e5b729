ghost use Rattle.std.specs.Prelude.{◌≡◌, true, is_ok, MatchOption, MatchResult, OnOk};
ghost use Rattle.books.specs.Book.{Lawful};
ghost use Rattle.books.proofs.Shown.{lawful_shown};
ghost use Rattle.sheets.specs.Verdicts.{verdict_on};
ghost use Rattle.book_sheets.specs.Layout.{book_verdict};
ghost use Rattle.book_sheets.specs.Content.{Content, content, model_of};
ghost use Rattle.book_sheets.specs.Laws.{blank, SheetOf, OneSheet};
ghost use Rattle.book_sheets.specs.Reading.{Row, NoRow, Lists, NoLists};

use crate::checks::check_book_sheet;
use crate::step_lists::{Counts, StepLists};
use books::Book;
use sheets::fields::get;
use sheets::{Sheet, SheetFault, SortedNumbers};

// A step book that is read from the bytes of its sheet, which are lent and never copied.
#[derive(Drop)]
pub struct BookSheet<'a> {
    bytes: &'a [u8],
    ghost ok: { is_ok (book_verdict bytes.now) ≡ true },
    ghost lawful: { ∥ Lawful (model_of (content bytes.now)) ∥₁ },
}

impl<'a> BookSheet<'a> {
    // The sheet without facts or steps.
    pub fn new() -> BookSheet<'a>
        ensures { content result.bytes.now ≡ blank }
    {
        BookSheet {
            bytes: &[0, 0, 0, 0, 0, 0, 0, 12, 0, 0, 0, 12],
        }
    }

    // Reads the sheet in these bytes from now on, if they are one; else says what is wrong first, and stays as it was.
    pub fn open(&mut self, bytes: &'a [u8]) -> Result<(), SheetFault>
        ensures verdict { result ≡ verdict_on Sheet.Book (book_verdict bytes.now) }
        ensures after { MatchResult result (λ _. self.new.bytes ≡ bytes.entry) (λ _. self.new ≡ self.old) }
        ensures code { MatchResult result (λ _. SheetOf bytes.now (content bytes.now)) (λ _. (c : Content) → SheetOf bytes.now c → ⊥) }
        ensures law { OneSheet }
    {
        read_sheet(bytes)?;
        self.bytes = bytes;
        Ok(())
    }

    // Where the row of step `a` begins, if there is such a step.
    fn row(&self, a: usize) -> Option<usize>
        ensures { MatchOption result (NoRow self.now.bytes.now a) (λ at. Row self.now.bytes.now a at) }
    {
        (a < get::<u16>(self.bytes, 2) as usize).then(|| 12 + 11 * a)
    }

    // The lists of step `a`, if there is such a step.
    fn lists(&self, a: usize) -> Option<StepLists<'a>>
        ensures { MatchOption result (NoLists self.now.bytes.now a) (λ lists. Lists self.now.bytes.now a lists) }
    {
        let row = self.row(a)?;
        let counts = Counts::of_row(self.bytes, row);
        let at = get::<u32>(self.bytes, row) as usize;
        let adds_at = at + 2 * counts.needs as usize;
        let deletes_at = adds_at + 2 * counts.adds as usize;
        Some(StepLists {
            needs: SortedNumbers::new(self.bytes, at, counts.needs as usize),
            adds: SortedNumbers::new(self.bytes, adds_at, counts.adds as usize),
            deletes: SortedNumbers::new(self.bytes, deletes_at, counts.deletes as usize),
        })
    }
}

// Whether the bytes are a book sheet, and what is known of them then.
fn read_sheet(bytes: &[u8]) -> Result<(), SheetFault>
    ensures verdict { result ≡ verdict_on Sheet.Book (book_verdict bytes.now) }
    ensures code { MatchResult result (λ _. SheetOf bytes.now (content bytes.now)) (λ _. (c : Content) → SheetOf bytes.now c → ⊥) }
    ensures good { OnOk result ((is_ok (book_verdict bytes.now) ≡ true) × ∥ Lawful (model_of (content bytes.now)) ∥₁) }
    ensures law { OneSheet }
{
    check_book_sheet(bytes).map_err(|refused| refused.on(Sheet::Book))
}

impl Book for BookSheet<'_> {
    ghost model = { λ s. model_of (content s.bytes.now) };

    ghost lawful = { λ s. lawful_shown (model_of (content s.bytes.now)) s.lawful };

    fn facts(&self) -> usize {
        get::<u16>(self.bytes, 0) as usize
    }

    fn steps(&self) -> usize {
        get::<u16>(self.bytes, 2) as usize
    }

    fn needs(&self, a: usize, p: usize) -> bool {
        self.lists(a).is_some_and(|lists| lists.needs.has(p))
    }

    fn adds(&self, a: usize, p: usize) -> bool {
        self.lists(a).is_some_and(|lists| lists.adds.has(p))
    }

    fn deletes(&self, a: usize, p: usize) -> bool {
        self.lists(a).is_some_and(|lists| lists.deletes.has(p))
    }

    fn seconds(&self, a: usize) -> u32 {
        self.row(a).map_or(0, |row| get::<u32>(self.bytes, row + 4))
    }
}

#[cfg(test)]
mod tests {
    use super::*;

    // Three facts and one step of 1,000,000 seconds, that needs 0 and 2, adds 1 and deletes 2.
    const ONE: &[u8; 31] =
        b"\x00\x03\x00\x01\x00\x00\x00\x0c\x00\x00\x00\x17\x00\x00\x00\x17\x00\x0f\x42\x40\x02\x01\x01\x00\x00\x00\x02\x00\x01\x00\x02";

    // The number and the place of the refusal of these bytes, or zeros.
    fn refusal(bytes: &[u8]) -> (u8, usize) {
        let mut sheet = BookSheet::new();
        match sheet.open(bytes) {
            Ok(()) => (0, 0),
            Err(fault) => (fault.refusal.number(), fault.place),
        }
    }

    #[test]
    fn reads_back(rt: HostRuntime) {
        let mut sheet = BookSheet::new();
        assert!(rt; sheet.facts() == 0 && sheet.steps() == 0);
        assert!(rt; sheet.open(ONE).is_ok());
        assert!(rt; sheet.facts() == 3 && sheet.steps() == 1 && sheet.seconds(0) == 1000000);
        assert!(rt; sheet.needs(0, 0) && !sheet.needs(0, 1) && sheet.needs(0, 2));
        assert!(rt; !sheet.adds(0, 0) && sheet.adds(0, 1) && !sheet.adds(0, 2));
        assert!(rt; !sheet.deletes(0, 1) && sheet.deletes(0, 2));
        assert!(rt; !sheet.needs(1, 0) && !sheet.needs(0, 3) && sheet.seconds(1) == 0);
        assert!(rt; sheet.open(b"\x00\x03").is_err() && sheet.seconds(0) == 1000000);
    }

    // One byte of the sheet changed: the byte, its new value, the refusal's number and place.
    const CHANGED: [(usize, u8, u8, usize); 12] = [
        (0, 4, 2, 0),
        (2, 2, 2, 2),
        (7, 13, 3, 4),
        (11, 24, 3, 8),
        (15, 24, 3, 12),
        (19, 65, 2, 16),
        (20, 251, 2, 20),
        (21, 251, 2, 21),
        (22, 251, 2, 22),
        (26, 3, 4, 25),
        (26, 0, 5, 25),
        (30, 1, 6, 29),
    ];

    #[test]
    fn refuses_a_changed_byte(rt: HostRuntime) {
        for (at, byte, number, place) in CHANGED {
            let mut bytes = *ONE;
            if at < bytes.len() {
                bytes[at] = byte;
            }
            assert_eq!(rt; refusal(&bytes), (number, place));
        }
    }

    #[test]
    fn refuses_a_wrong_length(rt: HostRuntime) {
        let one = *ONE;
        assert_eq!(rt; refusal(&one[0..11]), (1, 11));
        assert_eq!(rt; refusal(&[4, 1]), (2, 0));
        // an offset is tested before the part that it points to
        assert_eq!(rt; refusal(&one[0..12]), (1, 12));
        assert_eq!(rt; refusal(&[0, 3, 0, 1, 0, 0, 0, 13, 0, 0, 0, 23]), (3, 4));
        // no steps
        assert_eq!(rt; refusal(&[0, 3, 0, 0, 0, 0, 0, 12, 0, 0, 0, 12]), (0, 0));
        assert_eq!(rt; refusal(&[0, 3, 0, 0, 0, 0, 0, 12, 0, 0, 0, 13]), (3, 8));
        // a byte follows
        assert_eq!(rt;
            refusal(&[0, 3, 0, 0, 0, 0, 0, 12, 0, 0, 0, 12, 0]),
            (9, 12)
        );
        // a step with empty lists
        assert_eq!(rt;
            refusal(
                b"\x00\x03\x00\x01\x00\x00\x00\x0c\x00\x00\x00\x17\x00\x00\x00\x17\x00\x00\x00\x05\x00\x00\x00",
            ),
            (0, 0)
        );
        assert_eq!(rt;
            refusal(
                b"\x00\x03\x00\x01\x00\x00\x00\x0c\x00\x00\x00\x17\x00\x00\x00\x18\x00\x00\x00\x05\x00\x00\x00",
            ),
            (3, 12)
        );
    }

    // The sheet of 250 facts and one step that needs them all: 12 bytes of header, 11 of its row, two for each fact.
    fn longest_list() -> [u8; 523] {
        let mut sheet = [0; 523];
        let front =
            *b"\x00\xfa\x00\x01\x00\x00\x00\x0c\x00\x00\x00\x17\x00\x00\x00\x17\x00\x00\x00\x01\xfa\x00\x00";
        sheet[..23].copy_from_slice(&front);
        for p in 0..250 {
            sheet[24 + 2 * p as usize] = p;
        }
        sheet
    }

    #[test]
    fn lists_have_at_most_250_facts(rt: HostRuntime) {
        let mut sheet = longest_list();
        assert_eq!(rt; refusal(&sheet), (0, 0));
        sheet[20] = 251;
        assert_eq!(rt; refusal(&sheet), (2, 20));
    }
}
