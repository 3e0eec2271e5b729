// What the program can be asked for, and the words that it answers with.
#![tactic(auto)]

pub mod command;
pub mod ending;
pub mod meaning;
pub mod parsing;
pub mod told;
pub mod words;

pub use command::{Command, Output};
pub use ending::accepted;
pub use meaning::{explain, help};
pub use parsing::parse;
pub use told::Told;
