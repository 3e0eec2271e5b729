// The strata of a card as the levels of a task sheet.
ghost use Rattle.std.specs.Prelude.{◌≡◌, ℕ, ◌<◌, ◌≤◌, ◌&&◌, length, ◌==◌, nat_lt};
ghost use Rattle.facts.specs.Sets.{holds};
ghost use Rattle.cards.specs.Cards.{size_of};
ghost use Rattle.sheets.specs.Writers.{Room, Writes};
ghost use Rattle.task_sheets.specs.Content.{plan_bytes, total};
ghost use Rattle.recasts.specs.Layers.{step_of, stratum_of, steps_of, levels_of};

use super::Layers;
use crate::sets::put_set;
use facts::StepSet;
use sheets::Writer;

impl<'a> Layers<'a> {
    // The step of place `u`.
    fn step(&self, u: usize) -> usize
        requires { u < size_of self.now.card.now }
        ensures { result ≡ step_of self.now u }
    {
        self.card.plan().places()[u].step
    }

    // Whether place `u` is of stratum `k`.
    fn is_of(&self, u: usize, k: usize) -> bool
        requires { u < size_of self.now.card.now }
        ensures { result ≡ (stratum_of self.now u == k) }
    {
        self.strata[u].count as usize == k
    }

    // The steps of the places of stratum `k`.
    fn steps(&self, k: usize) -> StepSet
        ensures { (a : ℕ) → holds result.words a ≡ (nat_lt a 512 && steps_of self.now k a) }
    {
        let mut set = StepSet::empty();
        for u in 0..self.card.count() {
            if self.is_of(u, k) {
                set.insert(self.step(u));
            }
        }
        set
    }

    // How many steps all strata have.
    pub(crate) fn total(&self) -> usize
        ensures is { result ≡ total (levels_of self.now) }
        ensures few { result ≤ 256 }
    {
        let mut total = 0;
        for k in 0..self.count {
            total += self.steps(k).len();
        }
        total
    }

    // Writes the strata as levels.
    pub(crate) fn put(&self, out: &mut Writer<'_>)
        requires { Room out.old (length (plan_bytes (levels_of self.now))) }
        ensures { Writes out.old (plan_bytes (levels_of self.now)) out.new }
    {
        for k in 0..self.count {
            put_set(out, &self.steps(k));
        }
    }
}
