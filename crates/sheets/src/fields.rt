ghost use Rattle.std.specs.Prelude.{◌≡◌, ◌+◌, ◌<◌, ◌≤◌, length};
ghost use Rattle.sheets.specs.Fields.{field, limit, offset};
ghost use Rattle.sheets.specs.Verdicts.{Gives};

use crate::fault::{Refusal, Refused};
use crate::field::Field;

// The bytes of a sheet and a place in it stay two parameters: a refusal names its byte in the sheet, so each reader is told
// where it reads, and a struct of the two would hide it.

// Whether a field of `width` bytes at `at` stands whole in the sheet.
pub fn stands(bytes: &[u8], at: usize, width: usize) -> Result<(), Refused>
    ensures { Gives result (field bytes.now at width) (λ _. at + width ≤ length bytes.now) }
{
    if at <= bytes.len() && bytes.len() - at >= width {
        Ok(())
    } else {
        Err(Refused {
            refusal: Refusal::Short,
            place: bytes.len(),
        })
    }
}

// The number at `at`.
pub fn field_at<T: Field>(bytes: &[u8], at: usize) -> Result<T, Refused>
    ensures { Gives result (field bytes.now at T.WIDTH) (λ v. (at + T.WIDTH ≤ length bytes.now) × (v ≡ T.says bytes.now at)) }
{
    stands(bytes, at, T::WIDTH)?;
    Ok(get(bytes, at))
}

// Whether the number read at `at` keeps its limit.
pub fn within(n: u32, most: u32, at: usize) -> Result<(), Refused>
    ensures { result ≡ limit n most at }
{
    if n <= most {
        Ok(())
    } else {
        Err(Refused {
            refusal: Refusal::OverLimit,
            place: at,
        })
    }
}

// Whether the offset in the field at `at` is where its part begins.
pub fn begins_at(bytes: &[u8], at: usize, begins: usize) -> Result<(), Refused>
    requires { at + 4 ≤ length bytes.now }
    ensures { result ≡ offset bytes.now at begins }
{
    if get::<u32>(bytes, at) as usize == begins {
        Ok(())
    } else {
        Err(Refused {
            refusal: Refusal::Misplaced,
            place: at,
        })
    }
}

// The number at `at`, which the sheet is known to hold.
pub fn get<T: Field>(bytes: &[u8], at: usize) -> T
    requires { at + T.WIDTH ≤ length bytes.now }
    ensures { result ≡ T.says bytes.now at }
{
    T::read(bytes, at)
}
