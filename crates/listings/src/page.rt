// What is found out of two sheets before it is written.
ghost use Rattle.std.specs.Prelude.{◌≡◌, length};
ghost use Rattle.listings.specs.declared.page.ListFault.TheVariants.{TooLong as of_length, Plan as of_plan};

use checks::{Arrangement, PlanFault};
use sheets::TooLong;
use timetables::{Seconds, StepCount};

// What is listed of an accepted plan: its places, how many levels and strata it has, when it ends, and by place the
// strata and the begins.
// Two arrays side by side, in fixed memory: each is lent to one timetable, which writes it whole.
#[derive(Drop)]
pub(crate) struct Page {
    pub(crate) plan: Arrangement,
    pub(crate) levels: usize,
    pub(crate) strata: StepCount,
    pub(crate) end: Seconds,
    pub(crate) stratum: [StepCount; 256],
    pub(crate) begins: [Seconds; 256],
    ghost layered: { length stratum ≡ 256 },
    ghost timed: { length begins ≡ 256 },
}

// Why two sheets have no page: one is too long to be opened, or they are refused.
#[derive(Clone, Copy)]
pub(crate) enum ListFault {
    TooLong(TooLong),
    Plan(PlanFault),
}

impl From<TooLong> for ListFault {
    ghost from_gives = { λ f r. r ≡ of_length f };

    fn from(fault: TooLong) -> ListFault {
        ListFault::TooLong(fault)
    }
}

impl From<PlanFault> for ListFault {
    ghost from_gives = { λ f r. r ≡ of_plan f };

    fn from(fault: PlanFault) -> ListFault {
        ListFault::Plan(fault)
    }
}
