// Book sheets: archived bytes opened as a step book.
#![tactic(auto)]

ghost use Rattle.book_sheets.specs.Example.{Worked};

pub mod book_sheet;
mod checks;
pub mod lists;
mod step_lists;

pub use book_sheet::BookSheet;
pub use lists::put_numbers;

// The sheet of the rack of 2 loggers and 1 bath, byte by byte.
pub fn the_worked_sheet_is_the_racks()
    ensures { Worked }
{}
