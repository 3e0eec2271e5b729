// What both kinds of sheet are made of: faults, fields, lists of ascending numbers, and the writing of bytes.
#![tactic(auto)]

pub mod fault;
pub mod fault_text;
pub mod field;
pub mod fields;
pub mod laws;
pub mod lengths;
pub mod lists;
pub mod numbers;
pub mod sorted_numbers;
pub mod writer;
pub mod writing;

pub use fault::{Refusal, Refused, Sheet, SheetFault};
pub use field::Field;
pub use lengths::{LONGEST, TooLong, keeps_length};
pub use numbers::Numbers;
pub use sorted_numbers::SortedNumbers;
pub use writer::Writer;
pub use writing::TooShort;
