ghost use Rattle.std.specs.Prelude.{◌≡◌, ℕ, false};
ghost use Rattle.facts.specs.Sets.{holds};
ghost use Rattle.boards.specs.Laws.{bits_lawful};

use crate::board::Board;
use facts::FactSet;

// A board with a bit for each of 1,024 facts.
#[derive(Clone, Copy)]
pub struct BitBoard {
    facts: FactSet,
}

impl BitBoard {
    // A board that holds nothing.
    pub fn new() -> BitBoard
        ensures { (q : ℕ) → holds result.facts.words q ≡ false }
    {
        BitBoard {
            facts: FactSet::empty(),
        }
    }
}

impl Board for BitBoard {
    ghost limit = { λ _. 1024 };

    ghost set = { λ b. holds b.facts.words };

    ghost lawful = { λ b. bits_lawful b.facts.words b.facts.whole };

    fn span(&self) -> usize {
        1024
    }

    fn held(&self, p: usize) -> bool {
        self.facts.contains(p)
    }

    fn put(&mut self, p: usize) -> bool {
        self.facts.insert(p)
    }

    fn clear(&mut self, p: usize) -> bool {
        self.facts.remove(p)
    }
}
