ghost use Rattle.std.specs.Prelude.{◌≤◌, length};

use cards::Card;
use timetables::StepCount;

mod writing;

// The places of a card by stratum: the stratum of each place, and the number of strata, which is no length of the slice.
#[derive(Clone, Copy)]
pub(crate) struct Layers<'a> {
    pub(crate) card: &'a Card,
    pub(crate) strata: &'a [StepCount],
    pub(crate) count: usize,
    ghost room: { card.now.plan.count ≤ length strata.now },
    ghost few: { count ≤ 256 },
}
