// The recast of a task: its plan is checked, and its strata are written as levels.
ghost use Rattle.std.specs.Prelude.{◌≡◌, Ok};
ghost use Rattle.books.specs.Book.{Model, Lawful};
ghost use Rattle.checks.specs.Checked.{Checked};
ghost use Rattle.task_sheets.specs.Opened.{task_of};
ghost use Rattle.recasts.specs.Layers.{layered};
ghost use Rattle.recasts.specs.Recasts.{CardOf, SheetWritten, StrataWritten, RecastWritten, Recasts, OneRecastAnswer};

use crate::layers::Layers;
use crate::lists::{Header, check_room, list_of, put_header, put_list};
use books::Book;
use cards::{Card, RunFault};
use checks::{Arrangement, arrange};
use sheets::{TooShort, Writer};
use task_sheets::{Part, TaskSheet};
use timetables::{StepCount, strata};

// Writes the sheet of the task with these strata for its levels at the front of the buffer, and answers its length.
fn write_layers(task: &TaskSheet, layers: &Layers, out: &mut [u8]) -> Result<usize, TooShort>
    ensures { SheetWritten (layered (task_of task.now) layers.now) out.old result out.new }
{
    let start = list_of(task, Part::Start);
    let goal = list_of(task, Part::Goal);
    let header = Header::of(task, layers.count, layers.total(), start.len(), goal.len());
    let needed = header.sheet_length();
    check_room(out.len(), needed)?;
    let mut sheet = Writer::new(out);
    put_header(&mut sheet, header);
    put_list(&mut sheet, start);
    put_list(&mut sheet, goal);
    layers.put(&mut sheet);
    Ok(needed)
}

// Writes the sheet of the task whose levels are the strata of the card at the front of the buffer, and answers its length.
// Where the card has the places of the task's accepted plan, that is the task's recast.
pub fn write_strata(card: &Card, task: &TaskSheet, out: &mut [u8]) -> Result<usize, TooShort>
    ensures strata { StrataWritten (task_of task.now) card.now out.old result out.new }
    ensures recast { (m : Model) → Lawful m → Checked m (task_of task.now) (Ok tt) → CardOf m (task_of task.now) card.now → RecastWritten m (task_of task.now) out.old result out.new }
{
    let mut begins = [StepCount { count: 0 }; 256];
    let end = strata(card, &mut begins)?;
    let layers = Layers {
        card,
        strata: &begins,
        count: end.count as usize,
    };
    write_layers(task, &layers, out)
}

// Recasts a task: its plan is checked, and the sheet of the same task with the strata of the plan for its levels is written
// at the front of the buffer. The answer is its length; refused, nothing changes.
pub fn recast<B: Book>(book: &B, task: &TaskSheet, out: &mut [u8]) -> Result<usize, RunFault>
    ensures { Recasts (B.Book.model book.now) (task_of task.now) out.old result out.new }
{
    let mut plan = Arrangement::new();
    let _ = arrange(book, task, &mut plan)?;
    Ok(write_strata(&Card::waiting(plan), task, out)?)
}

// A recast has one answer: no other one fits the definition.
#[tactic(auto, using(crate::proofs::Answering::one_recast_answer))]
pub fn no_recast_has_two_answers()
    ensures { OneRecastAnswer }
{}
