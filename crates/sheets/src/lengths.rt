// How long a sheet may be.
ghost use Rattle.std.specs.Prelude.{◌≡◌};
ghost use Rattle.sheets.specs.Faults.{too_long_number};
ghost use Rattle.sheets.specs.Lengths.{KeepsLength};

// The longest sheet that is opened, in bytes.
pub const LONGEST: usize = 65536;

// A sheet is longer than the longest that is opened; how long it is.
#[derive(Clone, Copy, PartialEq, Eq, Debug)]
pub struct TooLong {
    pub length: usize,
}

impl TooLong {
    // The refusal's number on the list of all refusals.
    pub fn number(&self) -> u8
        ensures { result ≡ too_long_number }
    {
        19
    }
}

// Whether these bytes are few enough to be opened as a sheet.
pub fn keeps_length(bytes: &[u8]) -> Result<(), TooLong>
    ensures { KeepsLength bytes.now result }
{
    if bytes.len() <= LONGEST {
        Ok(())
    } else {
        Err(TooLong {
            length: bytes.len(),
        })
    }
}
