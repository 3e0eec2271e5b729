// How a place is begun, finished and put back, on any book, board and card.
// The three are lent to each call by themselves: the crew looks at the board between two calls, and no clause says whose
// board and card are lent, as each clause of a `Run` must.
ghost use Rattle.std.specs.Prelude.{◌≡◌, ℕ, not, ◌&&◌, ◌||◌, OnErr, ◌≢◌, nat_lt};
ghost use Rattle.cards.specs.Cards.{Called};
ghost use Rattle.cards.specs.declared.state.Event.TheVariants.{Begin, Finish, PutBack};

use crate::card::Card;
use crate::fault::RunFault;
use crate::state::{Event, State};
use boards::{Board, do_step};
use books::Book;

// Does step `a` on the board: clears what it deletes, then puts what it adds.
fn work<B: Book, D: Board>(book: &B, board: &mut D, a: usize)
    ensures span { D.Board.limit board.new ≡ D.Board.limit board.old }
    ensures holds { (q : ℕ) → D.Board.set board.new q ≡ ((D.Board.set board.old q && not ((B.Book.model book.now).deletes a q)) || ((B.Book.model book.now).adds a q && nat_lt q (D.Board.limit board.old))) }
{
    do_step(book, board, a);
}

// Asks for an event at a place. Granted, the place moves, and a finish does its step on the board; refused, nothing changes.
pub fn attempt<B: Book, D: Board>(
    book: &B,
    board: &mut D,
    card: &mut Card,
    event: Event,
    place: usize,
) -> Result<(), RunFault>
    ensures plan { card.new.plan ≡ card.old.plan }
    ensures span { D.Board.limit board.new ≡ D.Board.limit board.old }
    ensures answered { Called (B.Book.model book.now) (D.Board.limit board.old) card.old (D.Board.set board.old) event place result card.new (D.Board.set board.new) }
    ensures board { (event ≢ Finish) → board.new ≡ board.old }
    ensures refused { OnErr result ((card.new ≡ card.old) × (board.new ≡ board.old)) }
{
    let found = card.plan.place(place).ok_or(RunFault::NoPlace)?;
    match (card.states[place], event) {
        (State::Waiting, Event::Begin) => {
            if let Some(lowest) = card.lowest_unfinished(place) {
                return Err(RunFault::Unfinished { lowest });
            }
            card.states[place] = State::InHand;
        }
        (State::InHand, Event::Finish) => {
            card.states[place] = State::Finished;
            work(book, board, found.step);
        }
        (State::InHand, Event::PutBack) => card.states[place] = State::Waiting,
        _ => return Err(RunFault::WrongState),
    }
    Ok(())
}

// Takes a waiting place in hand, where every preceding place is finished. This and the next two stay three calls: each
// promises what its own event leaves, the board of a begin and of a put back too.
pub fn begin<B: Book, D: Board>(
    book: &B,
    board: &mut D,
    card: &mut Card,
    place: usize,
) -> Result<(), RunFault>
    ensures plan { card.new.plan ≡ card.old.plan }
    ensures span { D.Board.limit board.new ≡ D.Board.limit board.old }
    ensures answered { Called (B.Book.model book.now) (D.Board.limit board.old) card.old (D.Board.set board.old) Begin place result card.new (D.Board.set board.new) }
    ensures board { board.new ≡ board.old }
    ensures refused { OnErr result (card.new ≡ card.old) }
{
    attempt(book, board, card, Event::Begin, place)
}

// Finishes a place in hand: its step's deletes are cleared on the board, then its adds are put.
pub fn finish<B: Book, D: Board>(
    book: &B,
    board: &mut D,
    card: &mut Card,
    place: usize,
) -> Result<(), RunFault>
    ensures plan { card.new.plan ≡ card.old.plan }
    ensures span { D.Board.limit board.new ≡ D.Board.limit board.old }
    ensures answered { Called (B.Book.model book.now) (D.Board.limit board.old) card.old (D.Board.set board.old) Finish place result card.new (D.Board.set board.new) }
    ensures refused { OnErr result ((card.new ≡ card.old) × (board.new ≡ board.old)) }
{
    attempt(book, board, card, Event::Finish, place)
}

// Puts a place in hand back, so that it waits again; the board stays as it is.
pub fn put_back<B: Book, D: Board>(
    book: &B,
    board: &mut D,
    card: &mut Card,
    place: usize,
) -> Result<(), RunFault>
    ensures plan { card.new.plan ≡ card.old.plan }
    ensures span { D.Board.limit board.new ≡ D.Board.limit board.old }
    ensures answered { Called (B.Book.model book.now) (D.Board.limit board.old) card.old (D.Board.set board.old) PutBack place result card.new (D.Board.set board.new) }
    ensures board { board.new ≡ board.old }
    ensures refused { OnErr result (card.new ≡ card.old) }
{
    attempt(book, board, card, Event::PutBack, place)
}
