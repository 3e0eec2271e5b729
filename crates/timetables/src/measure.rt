ghost use Rattle.std.specs.Prelude.{◌≡◌};
ghost use Rattle.timetables.specs.Scale.{Scale, Laws};

// A kind of value that begins and weights are given in: a zero, an at-most order and an addition.
// A measure shows what they mean and that they are lawful.
pub trait Measure: Sized {
    ghost scale: { Scale Self };

    // The value that is at most every other.
    fn zero() -> Self
        ensures { result ≡ scale.zero };

    // Whether this value is at most the other.
    fn at_most(&self, other: &Self) -> bool
        ensures { result ≡ scale.within self.now other.now };

    // This value and a weight added.
    fn plus(self, weight: Self) -> Self
        ensures { result ≡ scale.plus self weight };

    ghost laws: { Laws scale };
}
