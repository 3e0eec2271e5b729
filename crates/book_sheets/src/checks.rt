ghost use Rattle.std.specs.Prelude.{◌≡◌, ◌+◌, ◌*◌, ◌^◌, ◌<◌, ◌≤◌, length};
ghost use Rattle.sheets.specs.Fields.{be16};
ghost use Rattle.sheets.specs.Numbers.{numbers_of};
ghost use Rattle.sheets.specs.Verdicts.{Gives, up_to};
ghost use Rattle.book_sheets.specs.Layout.{header, row, row_at, rows, deleted_from, lists, lists_at, step_lists, book_verdict};

use crate::step_lists::Counts;
use sheets::fields::{begins_at, field_at, stands, within};
use sheets::lists::{check_entry, check_list};
use sheets::{Refusal, Refused, SortedNumbers};

// How many facts and steps the header says there are.
#[derive(Drop)]
struct Header {
    facts: u16,
    steps: u16,
}

// The header, if it is whole and keeps its limits.
fn read_header(bytes: &[u8]) -> Result<Header, Refused>
    ensures { Gives result (header bytes.now) (λ h. (12 ≤ length bytes.now) × (h.facts ≡ be16 bytes.now 0) × (h.steps ≡ be16 bytes.now 2) × (h.steps ≤ 512)) }
{
    let facts = field_at::<u16>(bytes, 0)?;
    within(facts as u32, 1024, 0)?;
    let steps = field_at::<u16>(bytes, 2)?;
    within(steps as u32, 512, 2)?;
    stands(bytes, 4, 4)?;
    stands(bytes, 8, 4)?;
    Ok(Header { facts, steps })
}

// Whether the row at `at` is whole and keeps its limits.
fn check_row(bytes: &[u8], at: usize) -> Result<(), Refused>
    requires { at < 2 ^ 32 }
    ensures { Gives result (row bytes.now at) (λ _. at + 11 ≤ length bytes.now) }
{
    stands(bytes, at, 4)?;
    let seconds = field_at::<u32>(bytes, at + 4)?;
    within(seconds, 1000000, at + 4)?;
    let needs = field_at::<u8>(bytes, at + 8)?;
    within(needs as u32, 250, at + 8)?;
    let adds = field_at::<u8>(bytes, at + 9)?;
    within(adds as u32, 250, at + 9)?;
    let deletes = field_at::<u8>(bytes, at + 10)?;
    within(deletes as u32, 250, at + 10)?;
    Ok(())
}

// Whether the rows of so many steps are whole and keep their limits.
#[tactic(auto, using(sheets::proofs::Verdicts::up_to_stops))]
fn check_rows(bytes: &[u8], steps: u16) -> Result<(), Refused>
    requires { 12 ≤ length bytes.now }
    ensures { Gives result (rows bytes.now steps) (λ _. row_at steps ≤ length bytes.now) }
{
    for a in 0..steps {
        check_row(bytes, 12 + 11 * a as usize)?;
    }
    Ok(())
}

// Whether entry `j` of the list of deletes at `at` is right, and not among the adds.
fn check_deleted(
    bytes: &[u8],
    facts: u16,
    adds: SortedNumbers,
    at: usize,
    j: usize,
) -> Result<(), Refused>
    requires { at + 2 * j ≤ length bytes.now }
    ensures { Gives result (deleted_from bytes.now facts (numbers_of adds.entry.numbers) at j) (λ _. at + 2 * j + 2 ≤ length bytes.now) }
{
    let p = check_entry(bytes, facts, at, j)?;
    if adds.has(p as usize) {
        return Err(Refused {
            refusal: Refusal::AddedToo,
            place: at + 2 * j,
        });
    }
    Ok(())
}

// Whether the list of `n` deletes at `at` is right.
#[tactic(auto, using(sheets::proofs::Verdicts::up_to_stops))]
fn check_deletes(
    bytes: &[u8],
    facts: u16,
    adds: SortedNumbers,
    at: usize,
    n: usize,
) -> Result<(), Refused>
    requires { at ≤ length bytes.now }
    ensures { Gives result (up_to (deleted_from bytes.now facts (numbers_of adds.entry.numbers) at) n) (λ _. at + 2 * n ≤ length bytes.now) }
{
    for j in 0..n {
        check_deleted(bytes, facts, adds, at, j)?;
    }
    Ok(())
}

// Where the lists at `at`, of so many needs, adds and deletes, end, if they are right.
fn check_lists(bytes: &[u8], facts: u16, counts: Counts, at: usize) -> Result<usize, Refused>
    requires { at ≤ length bytes.now }
    ensures { Gives result (lists bytes.now facts counts.needs counts.adds counts.deletes at) (λ q. (q ≡ at + 2 * counts.needs + 2 * counts.adds + 2 * counts.deletes) × (q ≤ length bytes.now)) }
{
    check_list(bytes, facts, at, counts.needs as usize)?;
    let adds_at = at + 2 * counts.needs as usize;
    let adds = check_list(bytes, facts, adds_at, counts.adds as usize)?;
    let deletes_at = adds_at + 2 * counts.adds as usize;
    check_deletes(bytes, facts, adds, deletes_at, counts.deletes as usize)?;
    Ok(deletes_at + 2 * counts.deletes as usize)
}

// Where the lists of step `a`, that are to begin at `at`, end, if they are right.
fn check_step(bytes: &[u8], facts: u16, a: u16, at: usize) -> Result<usize, Refused>
    requires at_in_bounds { at ≤ length bytes.now }
    requires a_in_bounds { row_at a + 11 ≤ length bytes.now }
    requires facts_value { facts ≡ be16 bytes.now 0 }
    requires at_value { at ≡ lists_at bytes.now a }
    ensures { Gives result (step_lists bytes.now a) (λ q. (q ≡ lists_at bytes.now (a + 1)) × (q ≤ length bytes.now)) }
{
    let row = 12 + 11 * a as usize;
    begins_at(bytes, row, at)?;
    check_lists(bytes, facts, Counts::of_row(bytes, row), at)
}

// Where the lists of all steps end, if they are right.
#[tactic(auto, using(sheets::proofs::Verdicts::up_to_stops))]
fn check_steps(bytes: &[u8], facts: u16, steps: u16) -> Result<usize, Refused>
    requires steps_in_bounds { row_at steps ≤ length bytes.now }
    requires facts_value { facts ≡ be16 bytes.now 0 }
    requires steps_value { steps ≡ be16 bytes.now 2 }
    ensures { Gives result (up_to (step_lists bytes.now) steps) (λ q. (q ≡ lists_at bytes.now steps) × (q ≤ length bytes.now)) }
{
    let mut at = 12 + 11 * steps as usize;
    for a in 0..steps {
        at = check_step(bytes, facts, a, at)?;
    }
    Ok(at)
}

// Whether the bytes are a book sheet, and else its first refusal.
pub(crate) fn check_book_sheet(bytes: &[u8]) -> Result<(), Refused>
    ensures { result ≡ book_verdict bytes.now }
{
    let header = read_header(bytes)?;
    begins_at(bytes, 4, 12)?;
    check_rows(bytes, header.steps)?;
    begins_at(bytes, 8, 12 + 11 * header.steps as usize)?;
    let end = check_steps(bytes, header.facts, header.steps)?;
    if bytes.len() > end {
        return Err(Refused {
            refusal: Refusal::Trailing,
            place: end,
        });
    }
    Ok(())
}
