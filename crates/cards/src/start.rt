// The start facts of a task on a board.
ghost use Rattle.std.specs.Prelude.{◌≡◌, ℕ, ◌&&◌, nat_lt};
ghost use Rattle.books.specs.Listed.{listed};
ghost use Rattle.task_sheets.specs.Opened.{task_of};

use boards::{Board, set_to};
use checks::part_set;
use task_sheets::{Part, TaskSheet};

// The board then holds the start facts that are below its span, and no others.
pub fn set_start<D: Board>(board: &mut D, task: &TaskSheet)
    ensures span { D.Board.limit board.new ≡ D.Board.limit board.old }
    ensures holds { (q : ℕ) → D.Board.set board.new q ≡ (listed (task_of task.now).start q && nat_lt q (D.Board.limit board.old)) }
{
    set_to(board, &part_set(task, Part::Start));
}
