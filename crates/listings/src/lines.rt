// The lines of a listing, put one behind the other where the buffer has room for them; the place goes on either way.
ghost use Rattle.std.specs.Prelude.{◌+◌, ◌^◌, ◌<◌, ◌≤◌, length};
ghost use Rattle.decimals.specs.Texts.{PutsText};
ghost use Rattle.listings.specs.Lines.{entry, newline, head_line, place_line, refused_line};

use decimals::{put_decimal, put_text};
use sheets::Writer;

// The byte that ends a line.
const LINE_END: u8 = 10;

// Puts words and the number behind them.
fn put_entry(writer: &mut Writer, words: &[u8], n: usize)
    requires { writer.old.at + length words.now ≤ 2 ^ 32 }
    ensures puts { PutsText writer.old (entry words.now n) writer.new }
    ensures few { writer.new.at ≤ writer.old.at + length words.now + 20 }
{
    put_text(writer, words);
    put_decimal(writer, n);
}

// Puts the byte that ends a line.
fn end_line(writer: &mut Writer)
    requires { writer.old.at ≤ 2 ^ 32 }
    ensures { PutsText writer.old newline writer.new }
{
    put_text(writer, &[LINE_END]);
}

// What the first line shows of a plan.
#[derive(Clone, Copy)]
pub(crate) struct Head {
    pub(crate) places: usize,
    pub(crate) levels: usize,
    pub(crate) strata: usize,
    pub(crate) seconds: usize,
}

// Puts the first line.
pub(crate) fn put_head(writer: &mut Writer, head: Head)
    requires { writer.old.at < 2 ^ 31 }
    ensures puts { PutsText writer.old (head_line head.places head.levels head.strata head.seconds) writer.new }
    ensures few { writer.new.at ≤ writer.old.at + 113 }
{
    put_entry(writer, b"places ", head.places);
    put_entry(writer, b" levels ", head.levels);
    put_entry(writer, b" strata ", head.strata);
    put_entry(writer, b" seconds ", head.seconds);
    end_line(writer);
}

// What is shown of one place.
#[derive(Clone, Copy)]
pub(crate) struct Row {
    pub(crate) place: usize,
    pub(crate) step: usize,
    pub(crate) level: usize,
    pub(crate) stratum: usize,
    pub(crate) begin: usize,
}

// Puts the line of a place.
pub(crate) fn put_row(writer: &mut Writer, row: Row)
    requires { writer.old.at < 2 ^ 31 }
    ensures puts { PutsText writer.old (place_line row.place row.step row.level row.stratum row.begin) writer.new }
    ensures few { writer.new.at ≤ writer.old.at + 127 }
{
    put_entry(writer, b"", row.place);
    put_entry(writer, b" step ", row.step);
    put_entry(writer, b" level ", row.level);
    put_entry(writer, b" stratum ", row.stratum);
    put_entry(writer, b" at ", row.begin);
    end_line(writer);
}

// Puts the line of a refusal.
pub(crate) fn put_refused(writer: &mut Writer, number: usize)
    requires { writer.old.at < 2 ^ 31 }
    ensures { PutsText writer.old (refused_line number) writer.new }
{
    put_entry(writer, b"refused ", number);
    end_line(writer);
}
