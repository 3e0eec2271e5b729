ghost use Rattle.std.specs.Prelude.{◌≡◌};
ghost use Rattle.checks.specs.Faults.{plan_number, Numbering};
ghost use Rattle.checks.specs.declared.fault.PlanFault.TheVariants.{Sheet as of_sheet};

use sheets::SheetFault;

// Why a plan is refused.
#[derive(Clone, Copy, PartialEq, Eq, Debug)]
pub enum PlanFault {
    // 1 to 9: a sheet is refused
    Sheet(SheetFault),
    // 10: the task's number of facts or of steps differs from the book's
    Mismatch,
    // 11: a step lacks a need as its level starts
    NeedMissing {
        level: usize,
        step: usize,
        fact: usize,
    },
    // 12: a level has no authorized order
    NoOrder {
        level: usize,
    },
    // 13: a goal fact is missing at the end
    GoalMissing {
        fact: usize,
    },
}

impl PlanFault {
    // The refusal's number on the list of all refusals.
    pub fn number(&self) -> u8
        ensures { result ≡ plan_number self.now }
    {
        match self {
            PlanFault::Sheet(fault) => fault.refusal.number(),
            PlanFault::Mismatch => 10,
            PlanFault::NeedMissing { .. } => 11,
            PlanFault::NoOrder { .. } => 12,
            PlanFault::GoalMissing { .. } => 13,
        }
    }
}

// Every fault tells its number, and stands on the list of refusals.
pub fn every_fault_is_listed()
    ensures { Numbering }
{}

// A sheet's fault is a plan's fault, whole.
impl From<SheetFault> for PlanFault {
    ghost from_gives = { λ f r. r ≡ of_sheet f };

    fn from(fault: SheetFault) -> PlanFault {
        PlanFault::Sheet(fault)
    }
}
