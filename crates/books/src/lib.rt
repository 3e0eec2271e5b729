// Step books: what each step needs, adds and deletes, and how long it takes.
#![tactic(auto)]

ghost use Rattle.books.specs.Laws.{SetLaws};

pub mod book;
pub mod step_facts;

pub use book::Book;
pub use step_facts::{StepFacts, gather};

// The members of a set are its numbers, each counted once.
pub fn sets_have_their_members()
    ensures { SetLaws }
{}
