// Requests carried out in turn.
ghost use Rattle.std.specs.Prelude.{◌≡◌, ◌<◌, ◌≤◌, length, take, drop, slice_set};
ghost use Rattle.cards.specs.Cards.{setting_of, moment_of, RequestReplied};
ghost use Rattle.cards.specs.Issues.{Numbered};
ghost use Rattle.runs.specs.Whole.{Carried};

use boards::Board;
use books::Book;
use cards::{Card, Reply, Request, reply};

// Carries a request out, and records its reply at `i`.
fn carry_request<B: Book, D: Board>(
    book: &B,
    board: &mut D,
    card: &mut Card,
    request: Request,
    replies: &mut [Reply],
    i: usize,
)
    requires { i < length replies.old }
    ensures plan { card.new.plan ≡ card.old.plan }
    ensures span { D.Board.limit board.new ≡ D.Board.limit board.old }
    ensures recorded { (r : Reply) × (replies.new ≡ slice_set replies.old i r) × (Numbered card.old → RequestReplied (B.Book.model book.now) (D.Board.limit board.old) card.old (D.Board.set board.old) request r card.new (D.Board.set board.new)) }
{
    replies[i] = reply(book, board, card, request);
}

// Carries the requests out in turn, and records each reply where its request stands.
pub(crate) fn carry_requests<B: Book, D: Board>(
    book: &B,
    board: &mut D,
    card: &mut Card,
    requests: &[Request],
    replies: &mut [Reply],
)
    requires { length requests.now ≤ length replies.old }
    ensures plan { card.new.plan ≡ card.old.plan }
    ensures span { D.Board.limit board.new ≡ D.Board.limit board.old }
    ensures carried { Numbered card.old → Carried (setting_of (B.Book.model book.now) (D.Board.limit board.old) card.old) (moment_of card.old (D.Board.set board.old)) requests.now (take (length requests.now) replies.new) (moment_of card.new (D.Board.set board.new)) }
    ensures rest { drop (length requests.now) replies.new ≡ drop (length requests.now) replies.old }
{
    for (i, request) in requests.iter().enumerate() {
        carry_request(book, board, card, *request, replies, i);
    }
}
