// Task sheets: archived bytes opened as a task, its lists handed out where they lie in the sheet.
#![tactic(auto)]

ghost use Rattle.task_sheets.specs.Example.{Worked};

mod checks;
pub mod item;
pub mod levels;

pub mod numbers {
    pub use sheets::Numbers;
}

pub mod task_sheet;

pub use item::{Item, Part};
pub use levels::Levels;
pub use numbers::Numbers;
pub use task_sheet::TaskSheet;

// The sheet of a task in two levels, byte by byte.
pub fn the_worked_sheet_is_the_tasks()
    ensures { Worked }
{}

#[cfg(test)]
mod tests;
