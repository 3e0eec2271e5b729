// What a card answers.
ghost use Rattle.std.specs.Prelude.{◌<◌, MatchBool, MatchOption};
ghost use Rattle.cards.specs.Cards.{Looked, SomeInHand, NoneInHand, size_of, precedes_of, done_of};
ghost use Rattle.cards.specs.Moments.{Cleared, Lowest};

use crate::card::Card;
use crate::fault::RunFault;
use crate::state::State;

impl Card {
    // The step, the level and the state of a place.
    pub fn look(&self, place: usize) -> Result<(usize, usize, State), RunFault>
        ensures { Looked self.now place result }
    {
        let found = self.plan.place(place).ok_or(RunFault::NoPlace)?;
        Ok((found.step, found.level, self.states[place]))
    }

    // The lowest unfinished place that precedes this one.
    pub(crate) fn lowest_unfinished(&self, place: usize) -> Option<usize>
        requires { place < size_of self.now }
        ensures { MatchOption result (Cleared (size_of self.now) (precedes_of self.now) (done_of self.now) place) (λ u. Lowest (size_of self.now) (precedes_of self.now) (done_of self.now) place u) }
    {
        (0..place).find(|&u| self.plan.precedes(u, place) && !self.states[u].is_finished())
    }

    // Whether a place is in hand.
    pub(crate) fn some_in_hand(&self) -> bool
        ensures { MatchBool result (SomeInHand self.now) (NoneInHand self.now) }
    {
        self.states[..self.count()]
            .iter()
            .any(|state| state.is_in_hand())
    }
}
