// Whole runs: a task issued, a crew's requests carried out, the places timed and the plan recast in one call.
#![tactic(auto)]

mod carrying;
mod lengths;
mod preparing;
pub mod whole;

pub use whole::{Outcome, carry_out};
