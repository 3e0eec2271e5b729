ghost use Rattle.std.specs.Prelude.{◌≡◌, ◌+◌, ◌*◌, ◌<◌, ◌≤◌, length};
ghost use Rattle.sheets.specs.Fields.{be16};
ghost use Rattle.sheets.specs.Lists.{entry, entries, numbers_at};
ghost use Rattle.sheets.specs.Numbers.{numbers_of};
ghost use Rattle.sheets.specs.Verdicts.{Gives};

use crate::fault::{Refusal, Refused};
use crate::fields::{field_at, get};
use crate::sorted_numbers::SortedNumbers;

// Entry `j` of the list at `at`, if it is right.
pub fn check_entry(bytes: &[u8], bound: u16, at: usize, j: usize) -> Result<u16, Refused>
    requires { at + 2 * j ≤ length bytes.now }
    ensures { Gives result (entry bytes.now bound at j) (λ p. (at + 2 * j + 2 ≤ length bytes.now) × (p ≡ be16 bytes.now (at + 2 * j))) }
{
    let place = at + 2 * j;
    let p = field_at::<u16>(bytes, place)?;
    if p >= bound {
        return Err(Refused {
            refusal: Refusal::OutOfRange,
            place,
        });
    }
    if j > 0 && get::<u16>(bytes, place - 2) >= p {
        return Err(Refused {
            refusal: Refusal::NotAbove,
            place,
        });
    }
    Ok(p)
}

// The list of `n` numbers below `bound` at `at`, if it is right.
#[tactic(auto, using(crate::proofs::Verdicts::up_to_stops))]
pub fn check_list<'a>(
    bytes: &'a [u8],
    bound: u16,
    at: usize,
    n: usize,
) -> Result<SortedNumbers<'a>, Refused>
    requires { at ≤ length bytes.now }
    ensures { Gives result (entries bytes.now bound at n) (λ list. (at + 2 * n ≤ length bytes.now) × (numbers_of list.numbers ≡ numbers_at bytes.now at n)) }
{
    for j in 0..n {
        check_entry(bytes, bound, at, j)?;
    }
    Ok(SortedNumbers::new(bytes, at, n))
}
