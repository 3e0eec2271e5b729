// Decimal numbers in lent buffers.
#![tactic(auto)]

ghost use Rattle.std.specs.Prelude.{◌≡◌, ◌+◌, ◌^◌, ◌<◌, length, decimal};
ghost use Rattle.decimals.specs.Numbers.{Decimals};
ghost use Rattle.decimals.specs.Texts.{PutsText};

use itoa::Buffer;
use sheets::Writer;

// Puts the bytes behind what was put, where the buffer has room for them; the place goes on either way. Short of room,
// nothing changes.
pub fn put_text(writer: &mut Writer, text: &[u8])
    requires { writer.old.at + length text.now < 2 ^ 64 }
    ensures puts { PutsText writer.old text.now writer.new }
    ensures kept { length writer.old.out.now < writer.old.at + length text.now → writer.new.out.now ≡ writer.old.out.now }
{
    if writer.has_room(text.len()) {
        writer.put_bytes(text);
    } else {
        writer.skip(text.len());
    }
}

// Puts the decimal digits of a number behind what was put, where the buffer has room for them; the place goes on either
// way.
pub fn put_decimal(writer: &mut Writer, n: usize)
    requires { writer.old.at + length (decimal n) < 2 ^ 64 }
    ensures { PutsText writer.old (decimal n) writer.new }
{
    let mut digits = Buffer::new();
    put_text(writer, digits.format(n).as_bytes());
}

// The digits of a number, weighed by powers of ten, give it; they lead with no zero, and no other digits say it.
pub fn decimals_say_their_numbers()
    ensures { Decimals }
{}
