// The issue of a task: its plan drawn up as a card, its start facts on the board.
ghost use Rattle.std.specs.Prelude.{◌≡◌, ℕ, OnErr};
ghost use Rattle.task_sheets.specs.Opened.{task_of};
ghost use Rattle.cards.specs.Drawing.{DrawAnswered};
ghost use Rattle.cards.specs.Issues.{IssueAnswered};

use crate::card::Card;
use crate::fault::RunFault;
use crate::start::set_start;
use boards::Board;
use books::Book;
use checks::{Arrangement, arrange};
use task_sheets::TaskSheet;

// Draws up the card of a task, on which every place of the plan waits: the plan is checked, then that nothing is in hand
// on the card that it is to replace, then that the board has room for all facts. Nothing changes.
pub fn draw_up<B: Book, D: Board>(
    book: &B,
    board: &D,
    card: &Card,
    task: &TaskSheet,
) -> Result<Card, RunFault>
    ensures { DrawAnswered (B.Book.model book.now) (D.Board.limit board.now) (task_of task.now) card.now result }
{
    let mut plan = Arrangement::new();
    let _ = arrange(book, task, &mut plan)?;
    if card.some_in_hand() {
        return Err(RunFault::InHand);
    }
    if board.span() < book.facts() {
        return Err(RunFault::SpanTooSmall);
    }
    Ok(Card::waiting(plan))
}

// Issues a task: the plan is checked, then every place of it waits on the card, and the board holds the start facts and
// no others. Refused, nothing changes.
pub fn issue<B: Book, D: Board>(
    book: &B,
    board: &mut D,
    card: &mut Card,
    task: &TaskSheet,
) -> Result<(), RunFault>
    ensures span { D.Board.limit board.new ≡ D.Board.limit board.old }
    ensures answered { IssueAnswered (B.Book.model book.now) (D.Board.limit board.old) (task_of task.now) card.old result card.new (D.Board.set board.new) }
    ensures refused { OnErr result ((card.new ≡ card.old) × (board.new ≡ board.old)) }
{
    *card = draw_up(book, board, card, task)?;
    set_start(board, task);
    Ok(())
}
