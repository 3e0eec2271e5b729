// Sets of small numbers, a bit for each number.
#![tactic(auto)]

ghost use Rattle.std.specs.Prelude.{◌≡◌, ℕ, ◌+◌, ◌-◌, ◌*◌, ◌^◌, ◌/◌, ◌%◌, ◌<◌, ◌≤◌, Bool, true, false, not, List, ◌&&◌, ◌||◌, length, if◌then◌else◌, MatchBool, MatchOption, ◌==◌, nat_le, nat_lt, slice_index};
ghost use Rattle.std.specs.Iterator.{Drains, at_most};
ghost use Rattle.facts.specs.Sets.{bit, holds, count, First, Next, GivesNext, same_below};
ghost use Rattle.facts.specs.Laws.{same_numbers, same_numbers-partial};

use std::array::from_fn;

// A set of numbers below 64 * W, in at most 16 words: number p is bit p % 64 of word p / 64.
#[derive(Clone, Copy)]
pub struct NumberSet<const W: usize> {
    words: [u64; W],
    ghost whole: { length words ≡ W },
    ghost few: { length words ≤ 16 },
}

// A set of facts, 0 to 1,023.
pub type FactSet = NumberSet<16>;

// A set of steps, 0 to 511.
pub type StepSet = NumberSet<8>;

// A set of places, 0 to 255.
pub type PlaceSet = NumberSet<4>;

impl<const W: usize> NumberSet<W> {
    // The set without numbers.
    pub fn empty() -> Self
        requires { W ≤ 16 }
        ensures { (q : ℕ) → holds result.words q ≡ false }
    {
        NumberSet { words: [0; W] }
    }

    // The set that these words hold.
    pub fn of(words: [u64; W]) -> Self
        requires { W ≤ 16 }
        ensures { result.words ≡ words.entry }
    {
        NumberSet { words }
    }

    // The words of the set.
    pub fn words(self) -> [u64; W]
        ensures { result ≡ self.entry.words }
    {
        self.words
    }

    // The numbers below `n` for which `f` answers yes, as far as the set has room for them.
    pub fn from_fn<F: Fn(usize) -> bool>(n: usize, f: F) -> Self
        requires few { W ≤ 16 }
        requires callable { (p : ℕ) → p < n → F.pre f p }
        ensures below { (q : ℕ) → q < n → q < 64 * W → F.post f q (holds result.words q) }
        ensures past { (q : ℕ) → n ≤ q → holds result.words q ≡ false }
    {
        let mut set = Self::empty();
        for p in 0..n {
            if f(p) {
                set.insert(p);
            }
        }
        set
    }

    // Whether the set holds `p`.
    pub fn contains(&self, p: usize) -> bool
        ensures { result ≡ holds self.now.words p }
    {
        // By a match: with is_some_and the test of every number of a set, as for a record, took 2.4 times as long.
        match self.words.get(p / 64) {
            Some(word) => *word >> (p % 64) & 1 == 1,
            None => false,
        }
    }

    // Makes `p` a member or not; no where the set has no room for such a number.
    fn write(&mut self, p: usize, member: bool) -> bool
        ensures answer { result ≡ nat_lt p (64 * W) }
        ensures after { (q : ℕ) → holds self.new.words q ≡ (if result && q == p then member else holds self.old.words q) }
        ensures past { result ≡ false → holds self.old.words p ≡ false }
    {
        // Once a borrow by get_mut is over, the check knows no element of the array: so the word is written by its index.
        if p / 64 >= W {
            return false;
        }
        if member {
            self.words[p / 64] |= 1 << (p % 64);
        } else {
            self.words[p / 64] &= !(1 << (p % 64));
        }
        true
    }

    // Puts `p` into the set; no where the set has no room for such a number.
    pub fn insert(&mut self, p: usize) -> bool
        ensures answer { result ≡ nat_lt p (64 * W) }
        ensures after { (q : ℕ) → holds self.new.words q ≡ (holds self.old.words q || (result && q == p)) }
    {
        self.write(p, true)
    }

    // Takes `p` out of the set; no where the set has no room for such a number.
    pub fn remove(&mut self, p: usize) -> bool
        ensures answer { result ≡ nat_lt p (64 * W) }
        ensures after { (q : ℕ) → holds self.new.words q ≡ (holds self.old.words q && not (q == p)) }
    {
        self.write(p, false)
    }

    // The set with the words that `f` makes of the words of both sets, place by place.
    fn combine<F: Fn(u64, u64) -> u64>(&self, other: &Self, f: F) -> Self
        requires { F.IsAlwaysCallable f }
        ensures words { (i : ℕ) → i < W → F.post f (slice_index self.now.words i) (slice_index other.now.words i) (slice_index result.words i) }
        ensures fit { (i : ℕ) → i < W → slice_index other.now.words i < 2 ^ 64 }
    {
        let (mine, others) = (self.words, other.words);
        NumberSet {
            words: from_fn(
                |i| -> u64
                    requires place { i < W }
                    requires callable { F.IsAlwaysCallable f }
                    ensures word { F.post f (slice_index mine i) (slice_index others i) result }
                    ensures fits { slice_index others i < 2 ^ 64 }
                { f(mine[i], others[i]) },
            ),
        }
    }

    // The numbers in `self`, in `other` or in both.
    pub fn union(&self, other: &Self) -> Self
        ensures { (q : ℕ) → holds result.words q ≡ (holds self.now.words q || holds other.now.words q) }
    {
        self.combine(other, |a, b| a | b)
    }

    // The numbers in `self` that are not in `other`.
    pub fn minus(&self, other: &Self) -> Self
        ensures { (q : ℕ) → holds result.words q ≡ (holds self.now.words q && not (holds other.now.words q)) }
    {
        self.combine(other, |a, b| a & !b)
    }

    // The numbers in both.
    pub fn common(&self, other: &Self) -> Self
        ensures { (q : ℕ) → holds result.words q ≡ (holds self.now.words q && holds other.now.words q) }
    {
        self.combine(other, |a, b| a & b)
    }

    // The first number of the set from `p` on.
    pub fn next_from(&self, p: usize) -> Option<usize>
        ensures { MatchOption result ((q : ℕ) → p ≤ q → holds self.now.words q ≡ false) (λ n. (n < 64 * W) × Next (holds self.now.words) p n) }
    {
        let mut low = p % 64;
        for (i, word) in self.words.iter().enumerate().skip(p / 64) {
            let word = *word >> low << low;
            if word != 0 {
                return Some(64 * i + word.trailing_zeros() as usize);
            }
            low = 0;
        }
        None
    }

    // The first number of the set.
    pub fn first(&self) -> Option<usize>
        ensures { MatchOption result ((q : ℕ) → holds self.now.words q ≡ false) (λ n. (n < 64 * W) × First (holds self.now.words) n) }
    {
        self.next_from(0)
    }

    // The first number of `self` that is not in `other`.
    pub fn first_outside(&self, other: &Self) -> Option<usize>
        ensures { MatchOption result ((q : ℕ) → (holds self.now.words q && not (holds other.now.words q)) ≡ false) (λ n. (n < 64 * W) × First (λ q. holds self.now.words q && not (holds other.now.words q)) n) }
    {
        self.minus(other).first()
    }

    // Whether some number is in both.
    pub fn intersects(&self, other: &Self) -> bool
        ensures { MatchBool result ((q : ℕ) × ((holds self.now.words q && holds other.now.words q) ≡ true)) ((q : ℕ) → (holds self.now.words q && holds other.now.words q) ≡ false) }
    {
        self.common(other).first().is_some()
    }

    // The numbers of the set in ascending order.
    pub fn iter(&self) -> Members<'_, W>
        ensures set { result.set.now.words ≡ self.now.words }
        ensures from { result.from ≡ 0 }
        ensures counted { (xs : List ℕ) → Drains (GivesNext (λ s. s.set.now.words) (λ s. s.from) (64 * W)) result xs → length xs ≡ count (holds self.now.words) (64 * W) }
    {
        Members {
            set: self,
            from: 0,
            base: 0,
            rest: 0,
        }
    }

    // How many numbers the set holds.
    pub fn len(&self) -> usize
        ensures { result ≡ count (holds self.now.words) (64 * W) }
    {
        self.iter().count()
    }
}

// The numbers of a set from `from` on, in ascending order. `rest` is what is left of the word of `from`, which begins at number `base`, or 0 where that word is still to be looked up.
#[derive(Drop)]
pub struct Members<'a, const W: usize> {
    set: &'a NumberSet<W>,
    from: usize,
    base: usize,
    rest: u64,
    ghost based: { 0 < rest → base ≡ 64 * (from / 64) },
    ghost in_hand: { 0 < rest → (j : ℕ) → bit rest j ≡ (nat_le (from % 64) j && bit (slice_index set.now.words (from / 64)) j) },
}

impl<'a, const W: usize> Iterator for Members<'a, W> {
    type Item = usize;

    ghost next_gives = { GivesNext (λ s. s.set.now.words) (λ s. s.from) (64 * W) };

    ghost remaining = { λ s. at_most (64 * W - s.from) };

    fn next(&mut self) -> Option<usize> {
        let number = if self.rest == 0 {
            let number = self.set.next_from(self.from)?;
            let word = self.set.words[number / 64] >> (number % 64) << (number % 64);
            self.base = 64 * (number / 64);
            self.rest = word & (word - 1);
            number
        } else {
            let number = self.base + self.rest.trailing_zeros() as usize;
            self.rest &= self.rest - 1;
            number
        };
        self.from = number + 1;
        Some(number)
    }
}

// Two sets are equal where they hold the same numbers. By hand: a derived equality speaks of words, and no clause knows that different words hold different numbers, since none bounds a word.
impl<const W: usize> PartialEq for NumberSet<W> {
    ghost eq = { λ a b. same_below 1024 (holds a.words) (holds b.words) };

    ghost laws = { same_numbers-partial 1024 (λ s. holds s.words) };

    fn eq(&self, other: &NumberSet<W>) -> bool
        ensures words { result ≡ same_below 1024 (holds self.now.words) (holds other.now.words) }
        ensures numbers { MatchBool result ((q : ℕ) → holds self.now.words q ≡ holds other.now.words q) ((q : ℕ) × (holds self.now.words q ≡ not (holds other.now.words q))) }
    {
        self.first_outside(other).is_none() && other.first_outside(self).is_none()
    }
}

impl<const W: usize> Eq for NumberSet<W> {
    ghost laws = { same_numbers 1024 (λ s. holds s.words) };
}

#[cfg(test)]
mod tests {
    use super::*;

    // The facts at the edges of the words.
    fn edges() -> FactSet {
        let mut facts = FactSet::empty();
        facts.insert(0);
        facts.insert(63);
        facts.insert(64);
        facts.insert(1023);
        facts
    }

    #[test]
    fn facts_at_the_edges(rt: HostRuntime) {
        let mut facts = edges();
        assert!(rt; facts.contains(63) && !facts.contains(62) && !facts.contains(65));
        assert!(rt; facts.contains(1023) && !facts.contains(1024));
        assert!(rt; !facts.insert(1024) && !facts.remove(1024) && facts == edges());
        assert!(rt; facts.remove(64) && facts.remove(64) && !facts.contains(64));
        assert!(rt; facts != edges());
        assert_eq!(rt; facts.next_from(1), Some(63));
        assert_eq!(rt; facts.next_from(64), Some(1023));
        assert_eq!(rt; facts.next_from(1024), None);
    }

    #[test]
    fn places_at_the_edges(rt: HostRuntime) {
        let mut places = PlaceSet::empty();
        assert!(rt; places.insert(255) && !places.insert(256));
        assert!(rt; places.contains(255) && !places.contains(256));
        assert_eq!(rt; places.first(), Some(255));
        assert!(rt; places.remove(255) && !places.remove(256));
        assert_eq!(rt; places.first(), None);
    }

    #[test]
    fn numbers_in_order(rt: HostRuntime) {
        let places = PlaceSet::from_fn(300, |p| p % 100 == 55);
        let mut numbers = places.iter();
        assert_eq!(rt; numbers.next(), Some(55));
        assert_eq!(rt; numbers.next(), Some(155));
        assert_eq!(rt; numbers.next(), Some(255));
        assert_eq!(rt; numbers.next(), None);
        assert!(rt; places.len() == 3 && PlaceSet::empty().len() == 0);
    }

    #[test]
    fn two_sets(rt: HostRuntime) {
        let facts = edges();
        let mut other = FactSet::empty();
        other.insert(63);
        other.insert(500);
        assert_eq!(rt; facts.first_outside(&other), Some(0));
        assert_eq!(rt; other.first_outside(&facts), Some(500));
        assert_eq!(rt; facts.first_outside(&facts), None);
        assert!(rt; facts.intersects(&other) && !facts.minus(&other).intersects(&other));
        assert!(rt; facts.common(&other).first() == Some(63) && facts.union(&other).contains(500));
        assert!(rt; FactSet::of(facts.words()) == facts);
    }
}
