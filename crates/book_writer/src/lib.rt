// The book writer: the one sheet of any step book, written into a lent buffer.
#![tactic(auto)]

pub mod writer;

pub use writer::write_book;
