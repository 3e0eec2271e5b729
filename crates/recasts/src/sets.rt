// Sets of steps, written as lists of a sheet.
ghost use Rattle.std.specs.Prelude.{◌+◌, ◌*◌, length};
ghost use Rattle.book_sheets.specs.Numbers.{numbers_in};
ghost use Rattle.sheets.specs.Writers.{Room, Writes};
ghost use Rattle.task_sheets.specs.Content.{list_bytes};

use book_sheets::put_numbers;
use facts::StepSet;
use sheets::Writer;

// Writes the set as a list, its count and then its steps in ascending order.
pub(crate) fn put_set(out: &mut Writer<'_>, set: &StepSet)
    requires { Room out.old (2 + 2 * length (numbers_in set.now.words 8)) }
    ensures { Writes out.old (list_bytes (numbers_in set.now.words 8)) out.new }
{
    out.put(set.len() as u16);
    put_numbers(out, set);
}
