ghost use Rattle.std.specs.Prelude.{◌≡◌};
ghost use Rattle.cards.specs.Faults.{run_number, Numbering};
ghost use Rattle.cards.specs.declared.fault.RunFault.TheVariants.{Plan, TooShort as of_too_short};

use checks::PlanFault;
use sheets::TooShort;

// Why a call of a run is refused.
#[derive(Clone, Copy, PartialEq, Eq, Debug)]
pub enum RunFault {
    // 1 to 13: a sheet or the plan is refused
    Plan(PlanFault),
    // 14: a step of the card is in hand
    InHand,
    // 15: the board's span is below the number of facts
    SpanTooSmall,
    // 16: the card has no such place
    NoPlace,
    // 17: the place is not in the state that the call asks for
    WrongState,
    // 18: a preceding place is unfinished, the lowest is named
    Unfinished { lowest: usize },
    // 19: a lent buffer is too short
    TooShort(TooShort),
}

impl RunFault {
    // The refusal's number on the list of all refusals.
    pub fn number(&self) -> u8
        ensures { result ≡ run_number self.now }
    {
        match self {
            RunFault::Plan(fault) => fault.number(),
            RunFault::InHand => 14,
            RunFault::SpanTooSmall => 15,
            RunFault::NoPlace => 16,
            RunFault::WrongState => 17,
            RunFault::Unfinished { .. } => 18,
            RunFault::TooShort(fault) => fault.number(),
        }
    }
}

// Every fault tells its number, and stands on the list of refusals.
pub fn every_fault_is_listed()
    ensures { Numbering }
{}

// A plan's fault is a run's fault, whole.
impl From<PlanFault> for RunFault {
    ghost from_gives = { λ f r. r ≡ Plan f };

    fn from(fault: PlanFault) -> RunFault {
        RunFault::Plan(fault)
    }
}

// A buffer that is too short is a run's fault, whole.
impl From<TooShort> for RunFault {
    ghost from_gives = { λ f r. r ≡ of_too_short f };

    fn from(fault: TooShort) -> RunFault {
        RunFault::TooShort(fault)
    }
}
