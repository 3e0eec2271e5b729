ghost use Rattle.std.specs.Prelude.{◌≡◌, ℕ, ◌+◌, ◌≤◌, List, [], ◌∷◌, ◌++◌, length, slice_index, refl};
ghost use Rattle.sheets.specs.Fields.{be16, be32, be64, two, four, eight};
ghost use Rattle.sheets.specs.FieldBytes.{two_read, four_read, eight_read};

use std::convert::AsSlice;

// A number in so many bytes of a sheet, the highest byte first.
pub trait Field: Copy {
    type Bytes: AsSlice<u8> + Drop;

    ghost WIDTH: { ℕ };

    // the number that the bytes from a place on say
    ghost says: { List ℕ → ℕ → Self };

    // the bytes that say a number
    ghost bytes_of: { Self → List ℕ };

    const WIDTH: usize;

    // The number in the bytes at `at`.
    fn read(bytes: &[u8], at: usize) -> Self
        requires { at + WIDTH ≤ length bytes.now }
        ensures { result ≡ says bytes.now at };

    // The bytes of the number.
    fn to_bytes(self) -> Self::Bytes
        ensures { Self.Bytes.items result ≡ bytes_of self };

    ghost reads_back: { (n : Self) (rest : List ℕ) → says (bytes_of n ++ rest) 0 ≡ n };

    ghost bytes_long: { (n : Self) → length (bytes_of n) ≡ WIDTH };
}

impl Field for u8 {
    type Bytes = [u8; 1];

    ghost WIDTH = { 1 };

    ghost says = { slice_index };

    ghost bytes_of = { λ n. n ∷ [] };

    ghost reads_back = { λ n rest. refl };

    ghost bytes_long = { λ n. refl };

    const WIDTH: usize = 1;

    fn read(bytes: &[u8], at: usize) -> u8 {
        bytes[at]
    }

    fn to_bytes(self) -> [u8; 1] {
        [self]
    }
}

impl Field for u16 {
    type Bytes = [u8; 2];

    ghost WIDTH = { 2 };

    ghost says = { be16 };

    ghost bytes_of = { two };

    ghost reads_back = { two_read };

    ghost bytes_long = { λ n. refl };

    const WIDTH: usize = 2;

    fn read(bytes: &[u8], at: usize) -> u16 {
        u16::from_be_bytes([bytes[at], bytes[at + 1]])
    }

    fn to_bytes(self) -> [u8; 2] {
        u16::to_be_bytes(self)
    }
}

impl Field for u32 {
    type Bytes = [u8; 4];

    ghost WIDTH = { 4 };

    ghost says = { be32 };

    ghost bytes_of = { four };

    ghost reads_back = { four_read };

    ghost bytes_long = { λ n. refl };

    const WIDTH: usize = 4;

    fn read(bytes: &[u8], at: usize) -> u32 {
        u32::from_be_bytes([bytes[at], bytes[at + 1], bytes[at + 2], bytes[at + 3]])
    }

    fn to_bytes(self) -> [u8; 4] {
        u32::to_be_bytes(self)
    }
}

impl Field for u64 {
    type Bytes = [u8; 8];

    ghost WIDTH = { 8 };

    ghost says = { be64 };

    ghost bytes_of = { eight };

    ghost reads_back = { eight_read };

    ghost bytes_long = { λ n. refl };

    const WIDTH: usize = 8;

    fn read(bytes: &[u8], at: usize) -> u64 {
        u64::from_be_bytes([
            bytes[at],
            bytes[at + 1],
            bytes[at + 2],
            bytes[at + 3],
            bytes[at + 4],
            bytes[at + 5],
            bytes[at + 6],
            bytes[at + 7],
        ])
    }

    fn to_bytes(self) -> [u8; 8] {
        u64::to_be_bytes(self)
    }
}
