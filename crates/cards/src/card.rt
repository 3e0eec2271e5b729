ghost use Rattle.std.specs.Prelude.{◌≡◌, ℕ, true, length, slice_index_or};
ghost use Rattle.checks.specs.Rows.{marked};
ghost use Rattle.cards.specs.States.{finished, begun};
ghost use Rattle.cards.specs.declared.state.State.TheVariants.{Waiting};

use crate::state::State;
use checks::Arrangement;

pub mod calls;
mod looks;

// The places of a plan, each with its state. Whatever is in hand or finished has every preceding place finished.
#[derive(Drop)]
pub struct Card {
    plan: Arrangement,
    // In fixed memory beside the plan's places: a place's state changes, the plan doesn't.
    states: [State; 256],
    ghost sized: { length states ≡ 256 },
    ghost sound: { (u v : ℕ) → (marked plan.before u v ≡ true) × (begun (slice_index_or states v Waiting) ≡ true) → finished (slice_index_or states u Waiting) ≡ true },
}

impl Card {
    // A card without places.
    pub fn new() -> Card
        ensures { result.plan.count ≡ 0 }
    {
        Card::waiting(Arrangement::new())
    }

    // A card on which every place of the plan waits.
    pub fn waiting(plan: Arrangement) -> Card
        ensures plan { result.plan ≡ plan }
        ensures states { (u : ℕ) → slice_index_or result.states u Waiting ≡ Waiting }
    {
        Card {
            plan,
            states: [State::Waiting; 256],
        }
    }

    // The plan whose places are on the card.
    pub fn plan(&self) -> &Arrangement
        ensures { result.now ≡ self.now.plan }
    {
        &self.plan
    }

    // How many places there are.
    pub fn count(&self) -> usize
        ensures { result ≡ self.now.plan.count }
    {
        self.plan.count()
    }

    // Whether place `u` precedes place `v`; a place that is not there precedes nothing and is preceded by nothing.
    pub fn precedes(&self, u: usize, v: usize) -> bool
        ensures { result ≡ marked self.now.plan.before u v }
    {
        self.plan.precedes(u, v)
    }
}
