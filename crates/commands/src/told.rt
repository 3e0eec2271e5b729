ghost use Rattle.commands.specs.ToldText.{told_text};
ghost use Rattle.std.specs.Prelude.{Some};

use checks::PlanFault;
use sheets::Sheet;
use std::fmt;

// A plan's fault, told with the sheet that it is about.
#[derive(Clone, Copy)]
pub struct Told {
    pub fault: PlanFault,
}

impl fmt::Display for Told {
    ghost output = { λ t. Some (told_text t.fault) };

    fn fmt<W: fmt::Write>(&self, f: &mut fmt::Formatter<W>) -> fmt::Result {
        let fault = self.fault;
        match fault {
            PlanFault::Sheet(part) => match part.sheet {
                Sheet::Book => write!(f, "{fault} of the book sheet"),
                Sheet::Task => write!(f, "{fault} of the task sheet"),
            },
            PlanFault::Mismatch
            | PlanFault::NeedMissing { .. }
            | PlanFault::NoOrder { .. }
            | PlanFault::GoalMissing { .. } => write!(f, "{fault}"),
        }
    }
}
