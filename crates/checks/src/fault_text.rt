ghost use Rattle.checks.specs.FaultText.{text_of_plan_fault};
ghost use Rattle.std.specs.Prelude.{Some};

use crate::fault::PlanFault;
use std::fmt;

// A plan's fault in words: the refusal's number, and the values that it names.
impl fmt::Display for PlanFault {
    ghost output = { λ f. Some (text_of_plan_fault f) };

    fn fmt<W: fmt::Write>(&self, f: &mut fmt::Formatter<W>) -> fmt::Result {
        match *self {
            PlanFault::Sheet(fault) => write!(f, "{fault}"),
            PlanFault::Mismatch => write!(f, "refused 10"),
            PlanFault::NeedMissing { level, step, fact } => {
                write!(f, "refused 11 level {level} step {step} fact {fact}")
            }
            PlanFault::NoOrder { level } => write!(f, "refused 12 level {level}"),
            PlanFault::GoalMissing { fact } => write!(f, "refused 13 fact {fact}"),
        }
    }
}
