ghost use Rattle.std.specs.Prelude.{◌≡◌};
ghost use Rattle.sheets.specs.Faults.{too_short_number};

// A lent buffer is too short; the length that is needed.
#[derive(Clone, Copy, PartialEq, Eq, Debug)]
pub struct TooShort {
    pub needed: usize,
}

impl TooShort {
    // The refusal's number on the list of all refusals.
    pub fn number(&self) -> u8
        ensures { result ≡ too_short_number }
    {
        19
    }
}
