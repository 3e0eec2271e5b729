ghost use Rattle.std.specs.Prelude.{◌≡◌};
ghost use Rattle.racks.specs.RackFault.{Numbering, refusal_of};

// Why there is no rack.
#[derive(Clone, Copy, PartialEq, Eq, Debug)]
pub enum RackFault {
    // No logger, no bath, or more than 128 pairs of a logger and a bath.
    NoSuchRack,
}

impl RackFault {
    // The number of the refusal.
    pub fn number(&self) -> u8
        ensures { result ≡ (refusal_of self.now).number }
    {
        match self {
            RackFault::NoSuchRack => 20,
        }
    }
}

// The fault stands on the list of refusals.
pub fn the_fault_is_listed()
    ensures { Numbering }
{}
