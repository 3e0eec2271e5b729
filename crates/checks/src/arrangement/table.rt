// The table of precedence of a draft's places.
ghost use Rattle.std.specs.Prelude.{◌≡◌, ℕ, ◌<◌, ◌≤◌, false, length, Decides};
ghost use Rattle.facts.specs.Sets.{holds};
ghost use Rattle.books.specs.Book.{Model};
ghost use Rattle.plans.specs.Places.{Precedes, InOrder};
ghost use Rattle.task_sheets.specs.Content.{Task};
ghost use Rattle.checks.specs.Arrangements.{Arranges};
ghost use Rattle.checks.specs.Drafts.{Filled, PlanDrafted, places_of};

use crate::arrangement::{Arrangement, Place};
use crate::authorize::feeds;
use crate::draft::PlacedStep;
use facts::PlaceSet;

// Whether place `u` precedes the later place `v`.
fn goes_before(draft: &[PlacedStep], u: usize, v: usize) -> bool
    requires { (u < v) × (v < length draft.now) }
    ensures { (m : Model) → Filled m draft.now → InOrder m (places_of draft.now) → Decides result (Precedes m (places_of draft.now) u v) }
{
    let (first, later) = (&draft[u], &draft[v]);
    if !later.authorizes(first) {
        return true;
    }
    if first.place.level == later.place.level {
        return false;
    }
    !first.authorizes(later) || feeds(&first.facts, &later.facts)
}

// The places that precede place `v`; all of them are below it.
fn row_of(draft: &[PlacedStep], v: usize) -> PlaceSet
    requires { (v < length draft.now) × (length draft.now ≤ 256) }
    ensures below { (u : ℕ) → v ≤ u → holds result.words u ≡ false }
    ensures exact { (m : Model) → Filled m draft.now → InOrder m (places_of draft.now) → (u : ℕ) → u < v → Decides (holds result.words u) (Precedes m (places_of draft.now) u v) }
{
    PlaceSet::from_fn(v, |u| goes_before(draft, u, v))
}

impl Arrangement {
    // The places of the draft, with the table of which precede which.
    pub(crate) fn of(draft: &[PlacedStep]) -> Arrangement
        requires { length draft.now ≤ 256 }
        ensures { (m : Model) (t : Task) → PlanDrafted m t draft.now → Arranges m t result }
    {
        let mut places = [Place { step: 0, level: 0 }; 256];
        let mut before = [PlaceSet::empty(); 256];
        for (v, placed) in draft.iter().enumerate() {
            places[v] = placed.place;
            before[v] = row_of(draft, v);
        }
        Arrangement {
            count: draft.len(),
            places,
            before,
        }
    }
}
