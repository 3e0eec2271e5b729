ghost use Rattle.sheets.specs.FaultText.{text_of_fault, text_of_too_long};
ghost use Rattle.std.specs.Prelude.{Some};

use crate::fault::SheetFault;
use crate::lengths::TooLong;
use std::error::Error;
use std::fmt;

// A sheet's fault in words: the refusal's number and the byte that it names.
impl fmt::Display for SheetFault {
    ghost output = { λ f. Some (text_of_fault f) };

    fn fmt<W: fmt::Write>(&self, f: &mut fmt::Formatter<W>) -> fmt::Result {
        let number = self.refusal.number();
        let place = self.place;
        write!(f, "refused {number} at byte {place}")
    }
}

impl Error for SheetFault {}

// A sheet that is too long, in words: the refusal's number.
impl fmt::Display for TooLong {
    ghost output = { λ _. Some text_of_too_long };

    fn fmt<W: fmt::Write>(&self, f: &mut fmt::Formatter<W>) -> fmt::Result {
        let number = self.number();
        write!(f, "refused {number}")
    }
}

impl Error for TooLong {}
