// The check of a plan: accepted or refused, the one order of its places, and which place precedes which.
#![tactic(auto)]

pub mod arrangement;
mod authorize;
pub mod checking;
mod draft;
pub mod fault;
pub mod fault_text;
mod level;
pub mod opening;
pub mod reading;

pub use arrangement::{Arrangement, Place};
pub use checking::{arrange, check};
pub use fault::PlanFault;
pub use opening::{check_bytes, open_both};
pub use reading::part_set;
