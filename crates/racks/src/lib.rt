// The rack: loggers, a shelf and baths, as a step book by formula.
#![tactic(auto)]

pub mod rack;
pub mod rack_fault;
pub mod rack_names;
pub mod rack_text;

pub use rack::Rack;
pub use rack_fault::RackFault;
pub use rack_names::{RackFact, RackName, RackStep};

#[cfg(test)]
mod tests;
