// The parts of a task sheet in front of its levels.
ghost use Rattle.std.specs.Prelude.{◌≡◌, ◌+◌, ◌*◌, ◌<◌, ◌≤◌, length, MatchResult};
ghost use Rattle.sheets.specs.Fields.{be16};
ghost use Rattle.sheets.specs.Writers.{Room, Writes};
ghost use Rattle.task_sheets.specs.Content.{list_bytes};
ghost use Rattle.task_sheets.specs.Opened.{task_of};
ghost use Rattle.task_sheets.specs.Parts.{list_of, part_numbers};
ghost use Rattle.recasts.specs.Headers.{header_bytes, HeaderOf};

use sheets::{TooShort, Writer};
use task_sheets::{Part, TaskSheet};

// The header of a task sheet: how many facts, steps, levels and steps in all levels there are, and where the goal and
// the plan begin.
#[derive(Clone, Copy)]
pub(crate) struct Header {
    pub(crate) facts: u16,
    pub(crate) steps: u16,
    pub(crate) levels: u16,
    pub(crate) total: u16,
    pub(crate) goal: u32,
    pub(crate) plan: u32,
}

impl Header {
    // The header of the task with so many levels and steps in all of them, where its start and goal lists take so many
    // bytes.
    pub(crate) fn of(
        task: &TaskSheet,
        levels: usize,
        total: usize,
        start: usize,
        goal: usize,
    ) -> Header
        requires { (levels ≤ 256) × ((total ≤ 256) × ((start ≤ 2050) × (goal ≤ 2050))) }
        ensures { HeaderOf (task_of task.now) levels total start goal result }
    {
        Header {
            facts: task.facts() as u16,
            steps: task.steps() as u16,
            levels: levels as u16,
            total: total as u16,
            goal: (20 + start) as u32,
            plan: (20 + start + goal) as u32,
        }
    }

    // The length of the sheet: behind the start of the plan two bytes for each level's count and for each step.
    pub(crate) fn sheet_length(&self) -> usize
        ensures { result ≡ self.now.plan + 2 * self.now.levels + 2 * self.now.total }
    {
        self.plan as usize + 2 * self.levels as usize + 2 * self.total as usize
    }
}

// Whether a buffer of this length has room for what is needed.
pub(crate) fn check_room(length: usize, needed: usize) -> Result<(), TooShort>
    ensures { MatchResult result (λ _. needed ≤ length) (λ fault. (fault.needed ≡ needed) × (length < needed)) }
{
    if length < needed {
        return Err(TooShort { needed });
    }
    Ok(())
}

// Writes the header.
pub(crate) fn put_header(out: &mut Writer<'_>, header: Header)
    requires { Room out.old 20 }
    ensures { Writes out.old (header_bytes header) out.new }
{
    out.put(header.facts);
    out.put(header.steps);
    out.put(header.levels);
    out.put(header.total);
    out.put(20u32);
    out.put(header.goal);
    out.put(header.plan);
}

// A list of the task where it lies, its count included; the list of no numbers where there is no such part.
pub(crate) fn list_of<'a>(task: &TaskSheet<'a>, which: Part) -> &'a [u8]
    ensures whole { length result.now ≡ 2 + 2 * be16 result.now 0 }
    ensures few { length result.now ≤ 2050 }
    ensures says { part_numbers result.now ≡ list_of (task_of task.now) which }
{
    // By map_or the check would leave open that the list is whole.
    match task.item(which) {
        Some(item) => item.bytes(),
        None => &[0, 0],
    }
}

// Copies a list, its count included.
pub(crate) fn put_list(out: &mut Writer<'_>, list: &[u8])
    requires room { Room out.old (length list.now) }
    requires whole { length list.now ≡ 2 + 2 * be16 list.now 0 }
    ensures { Writes out.old (list_bytes (part_numbers list.now)) out.new }
{
    out.put_bytes(list);
}
