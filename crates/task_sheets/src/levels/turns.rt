ghost use Rattle.std.specs.Prelude.{◌≡◌, true};
ghost use Rattle.std.specs.Iterator.{item_count};
ghost use Rattle.task_sheets.specs.Layout.{fits};
ghost use Rattle.task_sheets.specs.Content.{levels_from};
ghost use Rattle.task_sheets.specs.Opened.{rest, Turn};

use super::Levels;
use sheets::Numbers;
use sheets::fields::get;

impl<'a> Levels<'a> {
    // So many levels, of which the first begins at `at`.
    pub(crate) fn over(bytes: &'a [u8], at: usize, left: usize) -> Levels<'a>
        requires { fits bytes.now at left ≡ true }
        ensures { rest result ≡ levels_from bytes.now at left }
    {
        Levels { bytes, at, left }
    }
}

// Each level is handed out as its steps.
impl<'a> Iterator for Levels<'a> {
    type Item = Numbers<'a>;

    ghost next_gives = { Turn };

    ghost remaining = { item_count rest };

    fn next(&mut self) -> Option<Numbers<'a>> {
        if self.left == 0 {
            return None;
        }
        let begin = self.at + 2;
        let end = begin + 2 * get::<u16>(self.bytes, self.at) as usize;
        self.at = end;
        self.left -= 1;
        Some(Numbers::new(&self.bytes[begin..end]))
    }
}

impl<'a> ExactSizeIterator for Levels<'a> {
    // How many levels are still to come.
    fn len(&self) -> usize {
        self.left
    }
}
