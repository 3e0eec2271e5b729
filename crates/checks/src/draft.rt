ghost use Rattle.std.specs.Prelude.{◌≡◌, ℕ, false, Decides};
ghost use Rattle.facts.specs.Sets.{holds};
ghost use Rattle.books.specs.Book.{Model};
ghost use Rattle.books.specs.Gathered.{Gathers};
ghost use Rattle.plans.specs.Steps.{Authorizes};

use crate::arrangement::Place;
use crate::authorize::authorizes;
use arrayvec::ArrayVec;
use books::StepFacts;
use facts::FactSet;

// A step at its place, with its facts.
#[derive(Clone, Copy)]
pub(crate) struct PlacedStep {
    pub(crate) place: Place,
    pub(crate) facts: StepFacts,
}

// The places of the levels that have passed, in order.
pub(crate) type Draft = ArrayVec<PlacedStep, 256>;

impl PlacedStep {
    // Whether this step authorizes the other one.
    pub(crate) fn authorizes(&self, other: &PlacedStep) -> bool
        ensures { (m : Model) → Gathers m self.now.place.step self.now.facts → Gathers m other.now.place.step other.now.facts → Decides result (Authorizes m self.now.place.step other.now.place.step) }
    {
        self.place.step != other.place.step && authorizes(&self.facts, &other.facts)
    }
}

// What fills the room of a draft that is not in use: a step without facts. By hand: no Default is derived for a set, which has
// ghost fields.
impl Default for PlacedStep {
    fn default() -> PlacedStep
        ensures needs { (q : ℕ) → holds result.facts.needs.words q ≡ false }
        ensures adds { (q : ℕ) → holds result.facts.adds.words q ≡ false }
        ensures deletes { (q : ℕ) → holds result.facts.deletes.words q ≡ false }
    {
        PlacedStep {
            place: Place { step: 0, level: 0 },
            facts: StepFacts {
                needs: FactSet::empty(),
                adds: FactSet::empty(),
                deletes: FactSet::empty(),
            },
        }
    }
}
