ghost use Rattle.std.specs.Prelude.{◌≡◌, ◌<◌, ◌≤◌, length, is_some};
ghost use Rattle.sheets.specs.Fields.{be16};
ghost use Rattle.std.specs.List.{between};
ghost use Rattle.task_sheets.specs.Layout.{past, level_begins_at};
ghost use Rattle.task_sheets.specs.Content.{total};
ghost use Rattle.task_sheets.specs.Parts.{Handed, handed_numbers, list_of};
ghost use Rattle.task_sheets.specs.Opened.{bytes_of, task_of, rest};

use super::TaskSheet;
use crate::item::{Item, Part};
use crate::levels::Levels;
use sheets::fields::get;

// The sheet of the task of no facts, steps and levels.
const BLANK: [u8; 24] = [
    0, 0, 0, 0, 0, 0, 0, 0, 0, 0, 0, 20, 0, 0, 0, 22, 0, 0, 0, 24, 0, 0, 0, 0,
];

impl<'a> TaskSheet<'a> {
    // Whether the sheet was opened.
    pub fn is_opened(&self) -> bool
        ensures { result ≡ is_some self.now.opened }
    {
        self.opened.is_some()
    }

    // The bytes that are read: those of the opened sheet, and else those of the blank one.
    fn bytes(&self) -> &'a [u8]
        ensures { result.now ≡ bytes_of self.now }
    {
        self.opened.unwrap_or(&BLANK)
    }

    // How many facts the task speaks of.
    pub fn facts(&self) -> usize
        ensures says { result ≡ (task_of self.now).facts }
        ensures few { result ≤ 1024 }
    {
        get::<u16>(self.bytes(), 0) as usize
    }

    // How many steps the task speaks of.
    pub fn steps(&self) -> usize
        ensures says { result ≡ (task_of self.now).steps }
        ensures few { result ≤ 512 }
    {
        get::<u16>(self.bytes(), 2) as usize
    }

    // How many levels the plan has.
    pub fn levels(&self) -> usize
        ensures says { result ≡ length (task_of self.now).levels }
        ensures few { result ≤ 256 }
    {
        get::<u16>(self.bytes(), 4) as usize
    }

    // How many steps all levels have.
    pub fn total(&self) -> usize
        ensures says { result ≡ total (task_of self.now).levels }
        ensures few { result ≤ 256 }
    {
        get::<u16>(self.bytes(), 6) as usize
    }

    // A part of the sheet, its count included, if the sheet was opened and has it.
    pub fn item(&self, which: Part) -> Option<Item<'a>>
        ensures lies { Handed (is_some self.now.opened) (bytes_of self.now) which result }
        ensures says { handed_numbers result ≡ list_of (task_of self.now) which }
    {
        let bytes = self.opened?;
        match which {
            Part::Start => Some(Item::Start(part(bytes, 20))),
            Part::Goal => Some(Item::Goal(part(bytes, get::<u32>(bytes, 12) as usize))),
            Part::Level(n) => {
                let most = self.levels();
                if n == 0 || n > most {
                    return None;
                }
                Some(Item::Level(part(bytes, self.level_at(n - 1))))
            }
        }
    }

    // The levels of the plan, one after the other.
    pub fn levels_in_turn(&self) -> Levels<'a>
        ensures { rest result ≡ (task_of self.now).levels }
    {
        Levels::over(self.bytes(), self.plan_at(), self.levels())
    }

    // Where the plan begins.
    fn plan_at(&self) -> usize
        ensures { result ≡ level_begins_at (bytes_of self.now) 0 }
    {
        get::<u32>(self.bytes(), 16) as usize
    }

    // Where level `i` begins, the first being level 0 here.
    fn level_at(&self, i: usize) -> usize
        requires { i < be16 (bytes_of self.now) 4 }
        ensures { result ≡ level_begins_at (bytes_of self.now) i }
    {
        let bytes = self.bytes();
        let mut at = self.plan_at();
        for _k in 0..i {
            at = list_end(bytes, at);
        }
        at
    }
}

// The list at `at`, where it lies.
fn part(bytes: &[u8], at: usize) -> &[u8]
    requires { past bytes.now at ≤ length bytes.now }
    ensures { result.now ≡ between at (past bytes.now at) bytes.now }
{
    &bytes[at..list_end(bytes, at)]
}

// The byte behind the list at `at`.
fn list_end(bytes: &[u8], at: usize) -> usize
    requires { past bytes.now at ≤ length bytes.now }
    ensures { result ≡ past bytes.now at }
{
    at + 2 + 2 * get::<u16>(bytes, at) as usize
}
