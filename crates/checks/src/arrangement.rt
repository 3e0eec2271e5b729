ghost use Rattle.std.specs.Prelude.{◌≡◌, ℕ, ◌<◌, ◌≤◌, true, ◌&&◌, length, take, MatchOption, nat_lt, slice_index_or};
ghost use Rattle.checks.specs.Rows.{marked};
ghost use Rattle.checks.specs.Tables.{blank};

use facts::PlaceSet;

mod table;

// A position in the order of a plan: its step, and the number of its level, from 1.
#[derive(Clone, Copy, PartialEq, Eq, Debug)]
pub struct Place {
    pub step: usize,
    pub level: usize,
}

// The places of a plan in order, and which of them precede which: a place precedes only higher places. Two arrays of fixed
// length with one count: callers without an allocator hold it by value, and the places alone are lent as a slice.
#[derive(Clone, Copy)]
pub struct Arrangement {
    count: usize,
    places: [Place; 256],
    before: [PlaceSet; 256],
    ghost few: { count ≤ 256 },
    ghost sized: { length places ≡ 256 },
    ghost tabled: { length before ≡ 256 },
    ghost upward: { (u v : ℕ) → marked before u v ≡ true → (nat_lt u v && nat_lt v count) ≡ true },
}

impl Arrangement {
    // The arrangement without places.
    pub fn new() -> Arrangement
        ensures { result.count ≡ 0 }
    {
        Arrangement {
            count: 0,
            places: [Place { step: 0, level: 0 }; 256],
            before: [PlaceSet::empty(); 256],
        }
    }

    // How many places there are.
    pub fn count(&self) -> usize
        ensures { result ≡ self.now.count }
    {
        self.count
    }

    // The place with number `u`, if it is there.
    pub fn place(&self, u: usize) -> Option<Place>
        ensures { MatchOption result (self.now.count ≤ u) (λ p. (u < self.now.count) × (p ≡ slice_index_or self.now.places u blank)) }
    {
        self.places().get(u).copied()
    }

    // The places in order, exactly those that are there.
    pub fn places(&self) -> &[Place]
        ensures { result.now ≡ take self.now.count self.now.places }
    {
        &self.places[..self.count]
    }

    // Whether place `u` precedes place `v`; a place that is not there precedes nothing and is preceded by nothing.
    pub fn precedes(&self, u: usize, v: usize) -> bool
        ensures { result ≡ marked self.now.before u v }
    {
        if v >= self.count {
            return false;
        }
        self.before[v].contains(u)
    }
}
