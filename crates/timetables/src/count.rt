ghost use Rattle.timetables.specs.Measures.{count_scale};
ghost use Rattle.std.proofs.Common.{rules};

use crate::measure::Measure;
use std::fmt;

// A count whose sum stops at TOP.
#[derive(Clone, Copy, PartialEq, Eq)]
pub struct Count<const TOP: u32> {
    pub count: u32,
}

// A number of steps; a sum stops at 65,535.
pub type StepCount = Count<65_535>;

// A number of seconds; a sum stops at 2^32 - 1.
pub type Seconds = Count<4_294_967_295>;

// By hand, so that it says which count it is: a derived one names both `Count`.
impl<const TOP: u32> fmt::Debug for Count<TOP> {
    fn fmt<W: fmt::Write>(&self, f: &mut fmt::Formatter<W>) -> fmt::Result {
        let name = match TOP {
            65_535 => "StepCount",
            4_294_967_295 => "Seconds",
            _ => "Count",
        };
        f.debug_struct(name).field("count", &self.count).finish()
    }
}

impl<const TOP: u32> Measure for Count<TOP> {
    ghost scale = { count_scale TOP };

    ghost laws = { Prim.search rules };

    fn zero() -> Count<TOP> {
        Count { count: 0 }
    }

    fn at_most(&self, other: &Count<TOP>) -> bool {
        self.count <= other.count
    }

    fn plus(self, weight: Count<TOP>) -> Count<TOP> {
        Count {
            count: self.count.saturating_add(weight.count).min(TOP),
        }
    }
}
