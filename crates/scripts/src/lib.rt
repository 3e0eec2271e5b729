// A crew's script: a text of lines, each one request.
#![tactic(auto)]

pub mod fault_text;
pub mod laws;
pub mod line;
pub mod numeral;
#[cfg(test)]
mod tests;
pub mod text;

pub use line::request;
pub use numeral::number;
pub use text::{ScriptFault, script};
