ghost use Rattle.books.specs.Gathered.{Gathers};

use crate::book::Book;
use facts::FactSet;

// The facts that a step needs, adds and deletes, as sets.
#[derive(Clone, Copy)]
pub struct StepFacts {
    pub needs: FactSet,
    pub adds: FactSet,
    pub deletes: FactSet,
}

// The three sets of step `a`; empty where the book has no such step.
pub fn gather<B: Book>(book: &B, a: usize) -> StepFacts
    ensures { Gathers (B.Book.model book.now) a result }
{
    let facts = book.facts();
    StepFacts {
        needs: FactSet::from_fn(facts, |p| book.needs(a, p)),
        adds: FactSet::from_fn(facts, |p| book.adds(a, p)),
        deletes: FactSet::from_fn(facts, |p| book.deletes(a, p)),
    }
}
