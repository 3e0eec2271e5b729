// A run: a book, a board and a card that nothing else changes while it lasts.
ghost use Rattle.std.specs.Prelude.{◌≡◌, ℕ, OnErr};
ghost use Rattle.task_sheets.specs.Opened.{task_of};
ghost use Rattle.cards.specs.Cards.{Called, Looked};
ghost use Rattle.cards.specs.Issues.{IssueAnswered};
ghost use Rattle.cards.specs.declared.state.Event.TheVariants.{Begin, Finish, PutBack};

use crate::card::{Card, calls};
use crate::fault::RunFault;
use crate::issuing;
use crate::state::State;
use boards::Board;
use books::Book;
use task_sheets::TaskSheet;

// The three that a run works on.
pub struct Run<'a, 'b, 'c, B, D> {
    book: &'a B,
    board: &'b mut D,
    card: &'c mut Card,
}

// The board and the card go back as the run left them.
impl<B, D> Drop for Run<'_, '_, '_, B, D> {
    fn drop(self)
        ensures board { self.exit.1.0.now ≡ self.entry.board.now }
        ensures card { self.exit.1.1.0.now ≡ self.entry.card.now }
    {
        let Run {
            book: _,
            board: _,
            card: _,
        } = self;
    }
}

impl<'a, 'b, 'c, B: Book, D: Board> Run<'a, 'b, 'c, B, D> {
    // A run on these three.
    pub fn new(book: &'a B, board: &'b mut D, card: &'c mut Card) -> Run<'a, 'b, 'c, B, D>
        ensures book { result.book.now ≡ book.now }
        ensures board { result.board.now ≡ board.old }
        ensures card { result.card.now ≡ card.old }
        ensures lent { (result.board.ghost_name ≡ board.entry.ghost_name) × (result.card.ghost_name ≡ card.entry.ghost_name) }
    {
        Run { book, board, card }
    }

    // The step, the level and the state of a place.
    pub fn look(&self, place: usize) -> Result<(usize, usize, State), RunFault>
        ensures { Looked self.now.card.now place result }
    {
        self.card.look(place)
    }

    // Issues a task: the plan is checked, then every place of it waits on the card, and the board holds the start facts
    // and no others. Refused, nothing changes.
    pub fn issue(&mut self, task: &TaskSheet) -> Result<(), RunFault>
        ensures lent { (self.new.board.ghost_name ≡ self.old.board.ghost_name) × (self.new.card.ghost_name ≡ self.old.card.ghost_name) }
        ensures book { self.new.book.now ≡ self.old.book.now }
        ensures span { D.Board.limit self.new.board.now ≡ D.Board.limit self.old.board.now }
        ensures answered { IssueAnswered (B.Book.model self.old.book.now) (D.Board.limit self.old.board.now) (task_of task.now) self.old.card.now result self.new.card.now (D.Board.set self.new.board.now) }
        ensures refused { OnErr result ((self.new.card.now ≡ self.old.card.now) × (self.new.board.now ≡ self.old.board.now)) }
    {
        issuing::issue(self.book, self.board, self.card, task)
    }

    // Takes a waiting place in hand, where every preceding place is finished.
    pub fn begin(&mut self, place: usize) -> Result<(), RunFault>
        ensures lent { (self.new.board.ghost_name ≡ self.old.board.ghost_name) × (self.new.card.ghost_name ≡ self.old.card.ghost_name) }
        ensures book { self.new.book.now ≡ self.old.book.now }
        ensures plan { self.new.card.now.plan ≡ self.old.card.now.plan }
        ensures span { D.Board.limit self.new.board.now ≡ D.Board.limit self.old.board.now }
        ensures answered { Called (B.Book.model self.old.book.now) (D.Board.limit self.old.board.now) self.old.card.now (D.Board.set self.old.board.now) Begin place result self.new.card.now (D.Board.set self.new.board.now) }
        ensures board { self.new.board.now ≡ self.old.board.now }
        ensures refused { OnErr result ((self.new.card.now ≡ self.old.card.now) × (self.new.board.now ≡ self.old.board.now)) }
    {
        calls::begin(self.book, self.board, self.card, place)
    }

    // Finishes a place in hand: its step's deletes are cleared on the board, then its adds are put.
    pub fn finish(&mut self, place: usize) -> Result<(), RunFault>
        ensures lent { (self.new.board.ghost_name ≡ self.old.board.ghost_name) × (self.new.card.ghost_name ≡ self.old.card.ghost_name) }
        ensures book { self.new.book.now ≡ self.old.book.now }
        ensures plan { self.new.card.now.plan ≡ self.old.card.now.plan }
        ensures span { D.Board.limit self.new.board.now ≡ D.Board.limit self.old.board.now }
        ensures answered { Called (B.Book.model self.old.book.now) (D.Board.limit self.old.board.now) self.old.card.now (D.Board.set self.old.board.now) Finish place result self.new.card.now (D.Board.set self.new.board.now) }
        ensures refused { OnErr result ((self.new.card.now ≡ self.old.card.now) × (self.new.board.now ≡ self.old.board.now)) }
    {
        calls::finish(self.book, self.board, self.card, place)
    }

    // Puts a place in hand back, so that it waits again; the board stays as it is.
    pub fn put_back(&mut self, place: usize) -> Result<(), RunFault>
        ensures lent { (self.new.board.ghost_name ≡ self.old.board.ghost_name) × (self.new.card.ghost_name ≡ self.old.card.ghost_name) }
        ensures book { self.new.book.now ≡ self.old.book.now }
        ensures plan { self.new.card.now.plan ≡ self.old.card.now.plan }
        ensures span { D.Board.limit self.new.board.now ≡ D.Board.limit self.old.board.now }
        ensures answered { Called (B.Book.model self.old.book.now) (D.Board.limit self.old.board.now) self.old.card.now (D.Board.set self.old.board.now) PutBack place result self.new.card.now (D.Board.set self.new.board.now) }
        ensures board { self.new.board.now ≡ self.old.board.now }
        ensures refused { OnErr result ((self.new.card.now ≡ self.old.card.now) × (self.new.board.now ≡ self.old.board.now)) }
    {
        calls::put_back(self.book, self.board, self.card, place)
    }
}
