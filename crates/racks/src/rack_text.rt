ghost use Rattle.racks.specs.RackText.{fact_text, step_text, fault_text};
ghost use Rattle.std.specs.Prelude.{Some};

use crate::rack_fault::RackFault;
use crate::rack_names::{RackFact, RackStep};
use std::error::Error;
use std::fmt;

impl fmt::Display for RackFact {
    ghost output = { λ f. Some (fact_text f) };

    fn fmt<W: fmt::Write>(&self, f: &mut fmt::Formatter<W>) -> fmt::Result {
        match *self {
            RackFact::InBath { logger, bath } => write!(f, "logger {logger} in bath {bath}"),
            RackFact::OnShelf { logger } => write!(f, "logger {logger} on the shelf"),
            RackFact::Settled { bath } => write!(f, "bath {bath} settled"),
            RackFact::ReadIn { logger, bath } => write!(f, "logger {logger} read in bath {bath}"),
        }
    }
}

impl fmt::Display for RackStep {
    ghost output = { λ s. Some (step_text s) };

    fn fmt<W: fmt::Write>(&self, f: &mut fmt::Formatter<W>) -> fmt::Result {
        match *self {
            RackStep::Put { logger, bath } => write!(f, "put logger {logger} in bath {bath}"),
            RackStep::TakeOut { logger, bath } => write!(
                f,
                "take logger {logger} out of bath {bath}"
            ),
            RackStep::Read { logger, bath } => write!(f, "read logger {logger} in bath {bath}"),
            RackStep::Settle { bath } => write!(f, "settle bath {bath}"),
        }
    }
}

// The fault in words: the refusal's number.
impl fmt::Display for RackFault {
    ghost output = { λ f. Some (fault_text f) };

    fn fmt<W: fmt::Write>(&self, f: &mut fmt::Formatter<W>) -> fmt::Result {
        let number = self.number();
        write!(f, "refused {number}")
    }
}

impl Error for RackFault {}
