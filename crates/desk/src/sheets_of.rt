// The two sheets of the folder.
use crate::files::read_sheet;
use crate::halt::Halt;
use book_sheets::BookSheet;
use checks::open_both;
use sheets::{TooLong, keeps_length};
use std::io;
use task_sheets::TaskSheet;

// The bytes of both sheets.
#[derive(Drop)]
pub struct Sheets {
    pub book: Vec<u8>,
    pub task: Vec<u8>,
}

impl Sheets {
    // Whether both are short enough to be opened.
    pub fn keep_length(&self) -> Result<(), TooLong> {
        keeps_length(self.book.as_slice())?;
        keeps_length(self.task.as_slice())
    }

    // Both sheets opened, the book's first; neither where one is too long.
    pub fn open(&self) -> Result<(BookSheet<'_>, TaskSheet<'_>), Halt> {
        self.keep_length()?;
        Ok(open_both(self.book.as_slice(), self.task.as_slice())?)
    }
}

// Reads book.bin and task.bin.
pub fn read_sheets(rt: &HostRuntime) -> io::Result<Sheets> {
    let book = read_sheet(rt, "book.bin")?;
    let task = read_sheet(rt, "task.bin")?;
    Ok(Sheets { book, task })
}
