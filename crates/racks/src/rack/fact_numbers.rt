ghost use Rattle.std.specs.Prelude.{◌≡◌, true, ◌==◌};
ghost use Rattle.racks.specs.Rack.{fact_on, count_of_facts, rack_fact_number, fact_at, FactNumbered};

use crate::rack::Rack;
use crate::rack_names::{RackFact, RackName};

// The facts: by kind, then by pair, by logger or by bath.
impl RackName for RackFact {
    ghost on = { fact_on };

    ghost count = { count_of_facts };

    ghost at = { fact_at };

    ghost Numbered = { FactNumbered };

    ghost is_on = { λ R B name n h. h.on };

    ghost is_below = { λ R B name n h. h.in_range };

    ghost is_at = { λ R B name n h. h.back };

    #[tactic(auto, using(crate::proofs::RackLaws::fact_here))]
    fn number_on(self, rack: &Rack) -> Option<usize> {
        let shelf = rack.pairs();
        let settled = shelf + rack.loggers;
        let read = settled + rack.baths;
        match self {
            RackFact::InBath { logger, bath } => rack.pair(logger, bath),
            RackFact::OnShelf { logger } => (logger < rack.loggers).then(|| shelf + logger),
            RackFact::Settled { bath } => (bath < rack.baths).then(|| settled + bath),
            RackFact::ReadIn { logger, bath } => rack.pair(logger, bath).map(|pair| read + pair),
        }
    }

    #[tactic(auto, using(crate::proofs::RackLaws::fact_here), unfolding(crate::specs::Rack::fact_at))]
    fn with_number(rack: &Rack, p: usize) -> Option<RackFact> {
        let shelf = rack.pairs();
        let settled = shelf + rack.loggers;
        let read = settled + rack.baths;
        if p < shelf {
            let (logger, bath) = rack.split(p);
            Some(RackFact::InBath { logger, bath })
        } else if p < settled {
            Some(RackFact::OnShelf { logger: p - shelf })
        } else if p < read {
            Some(RackFact::Settled { bath: p - settled })
        } else if p < read + shelf {
            let (logger, bath) = rack.split(p - read);
            Some(RackFact::ReadIn { logger, bath })
        } else {
            None
        }
    }
}

impl Rack {
    // Whether `p` is the number of a fact.
    pub(crate) fn is(&self, p: usize, fact: RackFact) -> bool
        requires { fact_on self.now.loggers self.now.baths fact ≡ true }
        ensures { result ≡ (p == rack_fact_number self.now.loggers self.now.baths fact) }
    {
        self.number(fact) == Some(p)
    }
}
