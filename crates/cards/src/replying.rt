// The reply to whatever a crew asks.
ghost use Rattle.std.specs.Prelude.{◌≡◌};
ghost use Rattle.cards.specs.Cards.{RequestReplied};
ghost use Rattle.cards.specs.Issues.{Numbered};
ghost use Rattle.cards.specs.Replies.{Works, UnlessGranted};

use crate::card::Card;
use crate::card::calls::attempt;
use crate::request::{Reply, Request};
use boards::Board;
use books::Book;

// Makes the call, or looks. Nothing changes unless a call is granted, and the board changes only where it is a finish.
pub fn reply<B: Book, D: Board>(book: &B, board: &mut D, card: &mut Card, request: Request) -> Reply
    ensures plan { card.new.plan ≡ card.old.plan }
    ensures span { D.Board.limit board.new ≡ D.Board.limit board.old }
    ensures replied { Numbered card.old → RequestReplied (B.Book.model book.now) (D.Board.limit board.old) card.old (D.Board.set board.old) request result card.new (D.Board.set board.new) }
    ensures board { (Works request → ⊥) → board.new ≡ board.old }
    ensures still { UnlessGranted result ((card.new ≡ card.old) × (board.new ≡ board.old)) }
{
    let told = match request {
        Request::Call(call) => {
            attempt(book, board, card, call.event, call.place).map(|()| Reply::Granted)
        }
        Request::Look(place) => card
            .look(place)
            .map(|(step, level, state)| Reply::Seen { step, level, state }),
    };
    told.unwrap_or_else(Reply::Refused)
}
