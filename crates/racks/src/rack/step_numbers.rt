ghost use Rattle.racks.specs.Rack.{step_on, count_of_steps, step_at, StepNumbered};

use crate::rack::Rack;
use crate::rack_names::{RackName, RackStep};

// The steps: by kind, then by pair or by bath.
impl RackName for RackStep {
    ghost on = { step_on };

    ghost count = { count_of_steps };

    ghost at = { step_at };

    ghost Numbered = { StepNumbered };

    ghost is_on = { λ R B name n h. h.on };

    ghost is_below = { λ R B name n h. h.is.in_range };

    ghost is_at = { λ R B name n h. h.back };

    #[tactic(auto, using(crate::proofs::RackLaws::step_here))]
    fn number_on(self, rack: &Rack) -> Option<usize> {
        let pairs = rack.pairs();
        match self {
            RackStep::Put { logger, bath } => rack.pair(logger, bath),
            RackStep::TakeOut { logger, bath } => rack.pair(logger, bath).map(|pair| pairs + pair),
            RackStep::Read { logger, bath } => rack.pair(logger, bath).map(|pair| 2 * pairs + pair),
            RackStep::Settle { bath } => (bath < rack.baths).then(|| 3 * pairs + bath),
        }
    }

    #[tactic(auto, using(crate::proofs::RackLaws::step_here), unfolding(crate::specs::Rack::step_at))]
    fn with_number(rack: &Rack, a: usize) -> Option<RackStep> {
        let pairs = rack.pairs();
        if a < pairs {
            let (logger, bath) = rack.split(a);
            Some(RackStep::Put { logger, bath })
        } else if a < 2 * pairs {
            let (logger, bath) = rack.split(a - pairs);
            Some(RackStep::TakeOut { logger, bath })
        } else if a < 3 * pairs {
            let (logger, bath) = rack.split(a - 2 * pairs);
            Some(RackStep::Read { logger, bath })
        } else {
            let bath = a - 3 * pairs;
            (bath < rack.baths).then_some(RackStep::Settle { bath })
        }
    }
}
