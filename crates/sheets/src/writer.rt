// Bytes written one behind the other into a lent buffer.
ghost use Rattle.std.specs.Prelude.{◌≡◌, ◌+◌, ◌^◌, ◌<◌, length, nat_le};
ghost use Rattle.sheets.specs.Writers.{Room, Writes, Skips};

use crate::field::Field;
use std::convert::AsSlice;

// A lent buffer, and the place up to which it is written.
pub struct Writer<'a> {
    out: &'a mut [u8],
    at: usize,
}

// The buffer goes back as the writer left it.
impl Drop for Writer<'_> {
    fn drop(self)
        ensures { self.exit.0.now ≡ self.entry.out.now }
    {
        let Writer { out: _, at: _ } = self;
    }
}

impl<'a> Writer<'a> {
    // A writer at the front of the buffer.
    pub fn new(out: &'a mut [u8]) -> Writer<'a>
        ensures bytes { result.out.now ≡ out.old }
        ensures front { result.at ≡ 0 }
        ensures lent { result.out.ghost_name ≡ out.entry.ghost_name }
    {
        Writer { out, at: 0 }
    }

    // The place behind what is written.
    pub fn place(&self) -> usize
        ensures { result ≡ self.now.at }
    {
        self.at
    }

    // Whether so many bytes fit behind what is written.
    pub fn has_room(&self, n: usize) -> bool
        requires { self.now.at + n < 2 ^ 64 }
        ensures { result ≡ nat_le (self.now.at + n) (length self.now.out.now) }
    {
        self.at + n <= self.out.len()
    }

    // The place goes on by so many bytes, and none is written.
    pub fn skip(&mut self, n: usize)
        requires { self.old.at + n < 2 ^ 64 }
        ensures { Skips self.old n self.new }
    {
        self.at += n;
    }

    // Writes the bytes behind what is written, where the buffer has room for them.
    pub fn put_bytes(&mut self, bytes: &[u8])
        requires { Room self.old (length bytes.now) }
        ensures { Writes self.old bytes.now self.new }
    {
        let next = self.at + bytes.len();
        self.out[self.at..next].copy_from_slice(bytes);
        self.at = next;
    }

    // Writes a number behind what is written, where the buffer has room for it.
    pub fn put<T: Field>(&mut self, n: T)
        requires { Room self.old T.WIDTH }
        ensures { Writes self.old (T.bytes_of n) self.new }
    {
        self.put_bytes(n.to_bytes().as_slice());
    }
}
