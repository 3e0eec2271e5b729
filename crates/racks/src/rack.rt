ghost use Rattle.std.specs.Prelude.{◌≡◌, ◌*◌, ◌≤◌, true, false, IfOk, MatchOption, MatchResult};
ghost use Rattle.books.specs.Book.{Lawful};
ghost use Rattle.racks.specs.Rack.{is_a_rack, rack_model, RackRules};

use crate::rack_fault::RackFault;
use crate::rack_names::RackName;

pub mod book;
mod fact_numbers;
mod pairs;
mod step_numbers;

// A shelf of loggers beside some baths, with at most 128 pairs of a logger and a bath.
#[derive(Clone, Copy)]
pub struct Rack {
    loggers: usize,
    baths: usize,
    ghost some_logger: { 1 ≤ loggers },
    ghost some_bath: { 1 ≤ baths },
    ghost few_pairs: { loggers * baths ≤ 128 },
    ghost few_loggers: { loggers ≤ 128 },
    ghost few_baths: { baths ≤ 128 },
    ghost lawful: { ∥ Lawful (rack_model loggers baths) ∥₁ },
}

impl Rack {
    // The most pairs of a logger and a bath.
    pub const MOST_PAIRS: usize = 128;

    // Whether there is a rack of so many loggers and baths.
    fn is_rack(loggers: usize, baths: usize) -> bool
        ensures { result ≡ is_a_rack loggers baths }
    {
        loggers > 0
            && baths > 0
            && loggers
                .checked_mul(baths)
                .is_some_and(|pairs| pairs <= Self::MOST_PAIRS)
    }

    // The rack of so many loggers and baths.
    pub fn new(loggers: usize, baths: usize) -> Result<Rack, RackFault>
        ensures which { MatchResult result (λ rack. (is_a_rack loggers baths ≡ true) × (rack.loggers ≡ loggers) × (rack.baths ≡ baths)) (λ e. (is_a_rack loggers baths ≡ false) × (e ≡ RackFault.NoSuchRack)) }
        ensures rules { IfOk result (λ rack. RackRules rack.loggers rack.baths) }
    {
        if !Self::is_rack(loggers, baths) {
            return Err(RackFault::NoSuchRack);
        }
        Ok(Rack { loggers, baths })
    }

    // How many loggers there are.
    pub fn loggers(&self) -> usize
        ensures { result ≡ self.now.loggers }
    {
        self.loggers
    }

    // How many baths there are.
    pub fn baths(&self) -> usize
        ensures { result ≡ self.now.baths }
    {
        self.baths
    }

    // The number of a fact or a step, where its logger and its bath are on the rack.
    pub fn number<N: RackName>(&self, name: N) -> Option<usize>
        ensures { MatchOption result (N.on self.now.loggers self.now.baths name ≡ false) (λ n. N.Numbered self.now.loggers self.now.baths name n) }
    {
        name.number_on(self)
    }

    // The fact or the step with number `n`, none past the last.
    pub fn name<N: RackName>(&self, n: usize) -> Option<N>
        ensures at { result ≡ N.at self.now.loggers self.now.baths n }
        ensures numbered { MatchOption result (N.count self.now.loggers self.now.baths ≤ n) (λ name. N.Numbered self.now.loggers self.now.baths name n) }
    {
        N::with_number(self, n)
    }
}
