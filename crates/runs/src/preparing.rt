// What is tested before a run changes anything.
ghost use Rattle.std.specs.Prelude.{Ok, MatchResult};
ghost use Rattle.task_sheets.specs.Opened.{task_of};
ghost use Rattle.cards.specs.Cards.{size_of};
ghost use Rattle.cards.specs.Drawing.{DrawAnswered};
ghost use Rattle.runs.specs.Rooms.{FirstShort, Enough};
ghost use Rattle.runs.specs.Whole.{by_places, RunRefused};

use crate::lengths::Lengths;
use boards::Board;
use books::Book;
use cards::{Card, RunFault, draw_up};
use sheets::TooShort;
use task_sheets::TaskSheet;

// Whether the buffers for the replies, and for so many places, are long enough; else the length that the first short one
// needs.
fn first_short(places: usize, lent: Lengths) -> Result<(), TooShort>
    ensures { MatchResult result (λ _. Enough (by_places lent places)) (λ e. FirstShort (by_places lent places) e.needed) }
{
    if lent.replies < lent.requests {
        return Err(TooShort {
            needed: lent.requests,
        });
    }
    if lent.weights < places || lent.begins < places {
        return Err(TooShort { needed: places });
    }
    Ok(())
}

// The card that would be issued, if the task can be issued and the buffers for the replies, the weights and the begins are
// long enough.
pub(crate) fn prepare<B: Book, D: Board>(
    book: &B,
    board: &D,
    card: &Card,
    task: &TaskSheet,
    lent: Lengths,
) -> Result<Card, RunFault>
    ensures { MatchResult result (λ fresh. DrawAnswered (B.Book.model book.now) (D.Board.limit board.now) (task_of task.now) card.now (Ok fresh) × Enough (by_places lent (size_of fresh))) (RunRefused (B.Book.model book.now) (D.Board.limit board.now) (task_of task.now) card.now lent) }
{
    let fresh = draw_up(book, board, card, task)?;
    first_short(fresh.count(), lent)?;
    Ok(fresh)
}
