ghost use Rattle.racks.specs.Rack.{rack_model};
ghost use Rattle.books.proofs.Shown.{lawful_shown};

use crate::rack::Rack;
use crate::rack_names::{RackFact, RackStep};
use books::Book;

// A rack as a step book.
impl Book for Rack {
    ghost model = { λ r. rack_model r.loggers r.baths };

    ghost lawful = { λ r. lawful_shown (rack_model r.loggers r.baths) r.lawful };

    fn facts(&self) -> usize {
        2 * self.pairs() + self.loggers + self.baths
    }

    fn steps(&self) -> usize {
        3 * self.pairs() + self.baths
    }

    fn needs(&self, a: usize, p: usize) -> bool {
        match self.name(a) {
            Some(RackStep::Put { logger, .. }) => self.is(p, RackFact::OnShelf { logger }),
            Some(RackStep::TakeOut { logger, bath }) => {
                self.is(p, RackFact::InBath { logger, bath })
            }
            Some(RackStep::Read { logger, bath }) => {
                self.is(p, RackFact::InBath { logger, bath })
                    || self.is(p, RackFact::Settled { bath })
            }
            Some(RackStep::Settle { .. }) | None => false,
        }
    }

    fn adds(&self, a: usize, p: usize) -> bool {
        match self.name(a) {
            Some(RackStep::Put { logger, bath }) => self.is(p, RackFact::InBath { logger, bath }),
            Some(RackStep::TakeOut { logger, .. }) => self.is(p, RackFact::OnShelf { logger }),
            Some(RackStep::Read { logger, bath }) => self.is(p, RackFact::ReadIn { logger, bath }),
            Some(RackStep::Settle { bath }) => self.is(p, RackFact::Settled { bath }),
            None => false,
        }
    }

    fn deletes(&self, a: usize, p: usize) -> bool {
        match self.name(a) {
            Some(RackStep::Put { logger, bath }) => {
                self.is(p, RackFact::Settled { bath }) || self.is(p, RackFact::OnShelf { logger })
            }
            Some(RackStep::TakeOut { logger, bath }) => {
                self.is(p, RackFact::InBath { logger, bath })
            }
            Some(RackStep::Read { .. } | RackStep::Settle { .. }) | None => false,
        }
    }

    fn seconds(&self, a: usize) -> u32 {
        match self.name(a) {
            Some(RackStep::Put { .. } | RackStep::TakeOut { .. } | RackStep::Read { .. }) => 60,
            Some(RackStep::Settle { .. }) => 1800,
            None => 0,
        }
    }
}
