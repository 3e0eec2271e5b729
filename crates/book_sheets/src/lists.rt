// The numbers of a set, as a list of a sheet.
ghost use Rattle.std.specs.Prelude.{◌*◌, length};
ghost use Rattle.book_sheets.specs.Numbers.{numbers_in};
ghost use Rattle.sheets.specs.Fields.{twos};
ghost use Rattle.sheets.specs.Writers.{Room, Writes};

use facts::NumberSet;
use sheets::Writer;

// Writes the numbers of the set in ascending order, two bytes for each.
pub fn put_numbers<const W: usize>(out: &mut Writer<'_>, set: &NumberSet<W>)
    requires { Room out.old (2 * length (numbers_in set.now.words W)) }
    ensures { Writes out.old (twos (numbers_in set.now.words W)) out.new }
{
    for p in set.iter() {
        out.put(p as u16);
    }
}
