ghost use Rattle.std.specs.Prelude.{◌≡◌};
ghost use Rattle.task_sheets.specs.Parts.{numbers_of, item_bytes, part_numbers};

use sheets::Numbers;
use sheets::fields::get;

// What a task sheet is asked for; levels go by their numbers from 1.
#[derive(Clone, Copy, PartialEq, Eq, Debug)]
pub enum Part {
    Start,
    Goal,
    Level(usize),
}

// A part of a task sheet where it lies, its count included.
#[derive(Clone, Copy)]
pub enum Item<'a> {
    Start(&'a [u8]),
    Goal(&'a [u8]),
    Level(&'a [u8]),
}

impl<'a> Item<'a> {
    // The bytes of the part.
    pub fn bytes(&self) -> &'a [u8]
        ensures { result.now ≡ item_bytes self.now }
    {
        match self {
            Item::Start(part) | Item::Goal(part) | Item::Level(part) => part,
        }
    }

    // The numbers of the part: as many as it counts, and no more than it has room for.
    pub fn numbers(&self) -> Numbers<'a>
        ensures { numbers_of result ≡ part_numbers (item_bytes self.now) }
    {
        let part = self.bytes();
        if part.len() < 2 {
            return Numbers::new(&[]);
        }
        let count = get::<u16>(part, 0) as usize;
        let n = count.min((part.len() - 2) / 2);
        Numbers::new(&part[2..2 + 2 * n])
    }
}
