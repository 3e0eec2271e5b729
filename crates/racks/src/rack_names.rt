ghost use Rattle.std.specs.Prelude.{◌≡◌, ℕ, ◌<◌, ◌≤◌, Bool, true, false, Some, Option, MatchOption};

use crate::rack::Rack;

// What a rack numbers from 0 up, each kind for itself: its facts, and its steps.
pub trait RackName: Copy {
    // Whether the name is on a rack of so many loggers and baths.
    ghost on: { ℕ → ℕ → Self → Bool };

    // How many names of the kind there are.
    ghost count: { ℕ → ℕ → ℕ };

    // The name with a number, none past the last.
    ghost at: { ℕ → ℕ → ℕ → Option Self };

    // A name on the rack and its number.
    ghost Numbered: { ℕ → ℕ → Self → ℕ → Type 0 };

    // The number of the name, where its logger and its bath are on the rack.
    fn number_on(self, rack: &Rack) -> Option<usize>
        ensures { MatchOption result (on rack.now.loggers rack.now.baths self ≡ false) (λ n. Numbered rack.now.loggers rack.now.baths self n) };

    // The name with number `n`, none past the last.
    fn with_number(rack: &Rack, n: usize) -> Option<Self>
        ensures at { result ≡ at rack.now.loggers rack.now.baths n }
        ensures numbered { MatchOption result (count rack.now.loggers rack.now.baths ≤ n) (λ name. Numbered rack.now.loggers rack.now.baths name n) };

    // A numbered name is on the rack.
    ghost is_on: { (R B : ℕ) (name : Self) (n : ℕ) → Numbered R B name n → on R B name ≡ true };

    // Its number is below their count.
    ghost is_below: { (R B : ℕ) (name : Self) (n : ℕ) → Numbered R B name n → n < count R B };

    // It is the one name with that number.
    ghost is_at: { (R B : ℕ) (name : Self) (n : ℕ) → Numbered R B name n → at R B n ≡ Some name };
}

// A fact of a rack, by its logger and its bath.
#[derive(Clone, Copy, PartialEq, Eq, Debug)]
pub enum RackFact {
    InBath { logger: usize, bath: usize },
    OnShelf { logger: usize },
    Settled { bath: usize },
    ReadIn { logger: usize, bath: usize },
}

// A step of a rack, by its logger and its bath.
#[derive(Clone, Copy, PartialEq, Eq, Debug)]
pub enum RackStep {
    Put { logger: usize, bath: usize },
    TakeOut { logger: usize, bath: usize },
    Read { logger: usize, bath: usize },
    Settle { bath: usize },
}
