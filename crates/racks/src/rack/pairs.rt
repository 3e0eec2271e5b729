ghost use Rattle.std.specs.Prelude.{◌≡◌, ◌+◌, ◌*◌, ◌/◌, ◌%◌, ◌<◌, true, false, MatchOption};
ghost use Rattle.racks.specs.Rack.{pair_on};

use crate::rack::Rack;

impl Rack {
    // How many pairs of a logger and a bath there are.
    pub(crate) fn pairs(&self) -> usize
        ensures { result ≡ self.now.loggers * self.now.baths }
    {
        self.loggers * self.baths
    }

    // The number of a pair, where both are on the rack: bath by bath, logger by logger.
    pub(crate) fn pair(&self, logger: usize, bath: usize) -> Option<usize>
        ensures { MatchOption result (pair_on self.now.loggers self.now.baths logger bath ≡ false) (λ n. (pair_on self.now.loggers self.now.baths logger bath ≡ true) × (n ≡ logger * self.now.baths + bath) × (n < self.now.loggers * self.now.baths)) }
    {
        (logger < self.loggers && bath < self.baths).then(|| logger * self.baths + bath)
    }

    // The logger and the bath of a pair, by its number. They stay two numbers: each name has them as two fields, so a
    // struct would be taken apart at every use.
    pub(crate) fn split(&self, pair: usize) -> (usize, usize)
        requires { pair < self.now.loggers * self.now.baths }
        ensures on { pair_on self.now.loggers self.now.baths result.0 result.1 ≡ true }
        ensures number { result.0 * self.now.baths + result.1 ≡ pair }
        ensures logger { result.0 ≡ pair / self.now.baths }
        ensures bath { result.1 ≡ pair % self.now.baths }
    {
        (pair / self.baths, pair % self.baths)
    }
}
