// What the program does with the words that it is given. Deciding and wording is done below; here files are read and
// written, and answers printed.
#![tactic(auto)]

pub mod files;
pub mod halt;
pub mod performing;
pub mod running;
pub mod sheets_of;

pub use performing::{answer, perform};
