// A whole run in one call.
ghost use Rattle.std.specs.Prelude.{◌≡◌, ℕ, ◌&&◌, length, MatchResult, OnErr, nat_lt};
ghost use Rattle.books.specs.Listed.{listed};
ghost use Rattle.task_sheets.specs.Opened.{task_of};
ghost use Rattle.runs.specs.Whole.{WholeRun, RunRefused};

use crate::carrying::carry_requests;
use crate::lengths::Lengths;
use crate::preparing::prepare;
use boards::Board;
use books::Book;
use cards::{Card, Reply, Request, RunFault, set_start};
use recasts::write_strata;
use task_sheets::TaskSheet;
use timetables::{Measure, timetable};

// What a whole run answers: the end of the timetable, and the length of the recast sheet.
#[derive(Clone, Copy)]
pub struct Outcome<M> {
    pub end: M,
    pub written: usize,
}

// Puts the card that was drawn up in place, and the start facts on the board.
fn start<D: Board>(board: &mut D, card: &mut Card, fresh: Card, task: &TaskSheet)
    ensures card { card.new ≡ fresh }
    ensures span { D.Board.limit board.new ≡ D.Board.limit board.old }
    ensures holds { (q : ℕ) → D.Board.set board.new q ≡ (listed (task_of task.now).start q && nat_lt q (D.Board.limit board.old)) }
{
    *card = fresh;
    set_start(board, task);
}

// Issues the task, carries the requests out in turn and records each reply, writes the timetable of the places by their
// weights, and writes the sheet of the recast task. Everything is tested first: refused, nothing changes.
// The buffers are lent one by one: a struct of them would be filled by each caller for this one call.
pub fn carry_out<B: Book, D: Board, M: Measure + Copy>(
    book: &B,
    task: &TaskSheet,
    board: &mut D,
    card: &mut Card,
    requests: &[Request],
    replies: &mut [Reply],
    weights: &[M],
    begins: &mut [M],
    sheet: &mut [u8],
) -> Result<Outcome<M>, RunFault>
    ensures span { D.Board.limit board.new ≡ D.Board.limit board.old }
    ensures answered { MatchResult result (λ o. WholeRun M.scale (B.Book.model book.now) (D.Board.limit board.old) (task_of task.now) card.old requests.now replies.old replies.new weights.now begins.old begins.new sheet.old sheet.new card.new (D.Board.set board.new) o.end o.written) (RunRefused (B.Book.model book.now) (D.Board.limit board.old) (task_of task.now) card.old (record { requests = length requests.now; replies = length replies.old; weights = length weights.now; begins = length begins.old; sheet = length sheet.old })) }
    ensures refused { OnErr result ((card.new ≡ card.old) × (board.new ≡ board.old) × (replies.new ≡ replies.old) × (begins.new ≡ begins.old) × (sheet.new ≡ sheet.old)) }
{
    let lent = Lengths {
        requests: requests.len(),
        replies: replies.len(),
        weights: weights.len(),
        begins: begins.len(),
        sheet: sheet.len(),
    };
    let fresh = prepare(book, board, card, task, lent)?;
    let written = write_strata(&fresh, task, sheet)?;
    start(board, card, fresh, task);
    carry_requests(book, board, card, requests, replies);
    let end = timetable(card, weights, begins)?;
    Ok(Outcome { end, written })
}
