// Timetables: when each place of a card begins at the earliest, in any measure.
#![tactic(auto)]

pub mod count;
pub mod measure;
pub mod stratum;
pub mod timetabling;
pub mod weighing;

// The two counts by modules of their own.
pub mod seconds {
    pub use crate::count::Seconds;
}

pub mod step_count {
    pub use crate::count::StepCount;
}

pub use count::{Count, Seconds, StepCount};
pub use measure::Measure;
pub use stratum::strata;
pub use timetabling::{only_one_timetable, timetable};
pub use weighing::weights;
