ghost use Rattle.std.specs.Prelude.{◌≡◌, ◌+◌, ◌*◌, ◌<◌, ◌≤◌, length};
ghost use Rattle.sheets.specs.Fields.{be16};
ghost use Rattle.sheets.specs.Verdicts.{Gives};
ghost use Rattle.task_sheets.specs.Layout.{header, past, level_begins_at, steps_before, placed, level, levels, task_verdict};

use sheets::fields::{begins_at, field_at, within};
use sheets::lists::check_list;
use sheets::{Refusal, Refused};

// The four counts of a header.
#[derive(Clone, Copy)]
struct Header {
    facts: u16,
    steps: u16,
    levels: u16,
    total: u16,
}

// How far the levels are read: up to which byte, and how many steps they have had.
#[derive(Clone, Copy)]
struct Reached {
    at: usize,
    steps: usize,
}

// The counts of the header, if it is whole and keeps its limits.
fn read_header(bytes: &[u8]) -> Result<Header, Refused>
    ensures { Gives result (header bytes.now) (λ h. (20 ≤ length bytes.now) × (h.facts ≡ be16 bytes.now 0) × (h.steps ≡ be16 bytes.now 2) × (h.levels ≡ be16 bytes.now 4) × (h.total ≡ be16 bytes.now 6) × (h.total ≤ 256)) }
{
    let facts = field_at::<u16>(bytes, 0)?;
    within(facts as u32, 1024, 0)?;
    let steps = field_at::<u16>(bytes, 2)?;
    within(steps as u32, 512, 2)?;
    let levels = field_at::<u16>(bytes, 4)?;
    within(levels as u32, 256, 4)?;
    let total = field_at::<u16>(bytes, 6)?;
    within(total as u32, 256, 6)?;
    let _start = field_at::<u32>(bytes, 8)?;
    let _goal = field_at::<u32>(bytes, 12)?;
    let _plan = field_at::<u32>(bytes, 16)?;
    Ok(Header {
        facts,
        steps,
        levels,
        total,
    })
}

// Where the list at `at` ends, if it is right and the offset in the field at `field` points to it.
fn check_placed(bytes: &[u8], field: usize, bound: u16, at: usize) -> Result<usize, Refused>
    requires { field + 4 ≤ length bytes.now }
    ensures { Gives result (placed bytes.now field bound at) (λ q. q ≡ past bytes.now at) }
{
    begins_at(bytes, field, at)?;
    let n = field_at::<u16>(bytes, at)? as usize;
    check_list(bytes, bound, at + 2, n)?;
    Ok(at + 2 + 2 * n)
}

// What is reached behind the next level, if it is right and all levels so far have at most `most` steps.
fn check_level(bytes: &[u8], bound: u16, most: u16, from: Reached) -> Result<Reached, Refused>
    requires { from.steps ≤ most }
    ensures { Gives result (level bytes.now bound most from.steps from.at) (λ q. (q.at ≡ past bytes.now from.at) × (q.steps ≡ from.steps + be16 bytes.now from.at) × (q.steps ≤ most)) }
{
    let n = field_at::<u16>(bytes, from.at)? as usize;
    if n == 0 {
        return Err(Refused {
            refusal: Refusal::EmptyLevel,
            place: from.at,
        });
    }
    if from.steps + n > most as usize {
        return Err(Refused {
            refusal: Refusal::WrongTotal,
            place: from.at,
        });
    }
    check_list(bytes, bound, from.at + 2, n)?;
    Ok(Reached {
        at: from.at + 2 + 2 * n,
        steps: from.steps + n,
    })
}

// What is reached behind all levels, which are to begin at `at`, if they are right.
fn check_levels(bytes: &[u8], counts: Header, at: usize) -> Result<Reached, Refused>
    requires at_value { at ≡ level_begins_at bytes.now 0 }
    requires steps_value { counts.steps ≡ be16 bytes.now 2 }
    requires total_value { counts.total ≡ be16 bytes.now 6 }
    ensures { Gives result (levels bytes.now counts.levels) (λ q. (q.at ≡ level_begins_at bytes.now counts.levels) × (q.steps ≡ steps_before bytes.now counts.levels)) }
{
    let mut reached = Reached { at, steps: 0 };
    for _i in 0..counts.levels {
        reached = check_level(bytes, counts.steps, counts.total, reached)?;
    }
    Ok(reached)
}

// Whether the bytes are a task sheet, and else its first refusal.
pub(crate) fn check_sheet(bytes: &[u8]) -> Result<(), Refused>
    ensures { result ≡ task_verdict bytes.now }
{
    let header = read_header(bytes)?;
    let goal = check_placed(bytes, 8, header.facts, 20)?;
    let plan = check_placed(bytes, 12, header.facts, goal)?;
    begins_at(bytes, 16, plan)?;
    let end = check_levels(bytes, header, plan)?;
    if end.steps < header.total as usize {
        return Err(Refused {
            refusal: Refusal::WrongTotal,
            place: 6,
        });
    }
    if bytes.len() > end.at {
        return Err(Refused {
            refusal: Refusal::Trailing,
            place: end.at,
        });
    }
    Ok(())
}
