// Recasting: an accepted plan written again, as a task sheet whose levels are its strata.
#![tactic(auto)]

mod layers;
mod lists;
pub mod recasting;
mod sets;

pub use recasting::{no_recast_has_two_answers, recast, write_strata};
