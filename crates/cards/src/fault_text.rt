ghost use Rattle.cards.specs.FaultText.{text_of_run_fault};
ghost use Rattle.std.specs.Prelude.{Some};

use crate::fault::RunFault;
use std::fmt;

// A run's fault in words: the refusal's number, and the value that it names.
impl fmt::Display for RunFault {
    ghost output = { λ f. Some (text_of_run_fault f) };

    fn fmt<W: fmt::Write>(&self, f: &mut fmt::Formatter<W>) -> fmt::Result {
        match *self {
            RunFault::Plan(fault) => write!(f, "{fault}"),
            RunFault::InHand => write!(f, "refused 14"),
            RunFault::SpanTooSmall => write!(f, "refused 15"),
            RunFault::NoPlace => write!(f, "refused 16"),
            RunFault::WrongState => write!(f, "refused 17"),
            RunFault::Unfinished { lowest } => write!(f, "refused 18 {lowest}"),
            RunFault::TooShort(short) => {
                let needed = short.needed;
                write!(f, "refused 19 {needed}")
            }
        }
    }
}
