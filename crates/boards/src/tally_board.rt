ghost use Rattle.std.specs.Prelude.{◌≡◌, ℕ, false, not, ◌&&◌, ◌||◌, length, if◌then◌else◌, ◌==◌, nat_eq, nat_lt};
ghost use Rattle.boards.specs.Board.{counted, in_cells, raised, tally_span};
ghost use Rattle.boards.specs.Laws.{cells_lawful};

use crate::board::Board;

// A board that counts for each of 512 facts how often it was put since it was last cleared.
#[derive(Clone, Copy)]
pub struct TallyBoard {
    cells: [u32; 512],
    ghost whole: { length cells ≡ 512 },
}

impl TallyBoard {
    // A board that holds nothing.
    pub fn new() -> TallyBoard
        ensures { (q : ℕ) → counted result.cells q ≡ 0 }
    {
        TallyBoard { cells: [0; 512] }
    }

    // The count of fact `p`; 0 at or above the span.
    pub fn count(&self, p: usize) -> u32
        ensures { result ≡ counted self.now.cells p }
    {
        self.cells.get(p).copied().unwrap_or(0)
    }
}

impl Board for TallyBoard {
    ghost limit = { λ b. tally_span b.cells };

    ghost set = { λ b. in_cells b.cells };

    ghost lawful = { λ b. cells_lawful b.cells b.whole };

    fn span(&self) -> usize {
        512
    }

    fn held(&self, p: usize) -> bool {
        self.count(p) != 0
    }

    // Adds 1 to the count of `p`, up to the largest number, and leaves the others.
    fn put(&mut self, p: usize) -> bool
        ensures answer { result ≡ nat_lt p (tally_span self.old.cells) }
        ensures span { tally_span self.new.cells ≡ tally_span self.old.cells }
        ensures after { (q : ℕ) → in_cells self.new.cells q ≡ (in_cells self.old.cells q || (result && q == p)) }
        ensures counts { (q : ℕ) → counted self.new.cells q ≡ (if result && q == p then raised (counted self.old.cells q) else counted self.old.cells q) }
    {
        // Once a borrow by get_mut is over, the check knows no element of the array: so cells are written by their index.
        if p >= 512 {
            return false;
        }
        self.cells[p] = self.cells[p].saturating_add(1);
        true
    }

    // Sets the count of `p` to 0, and leaves the others.
    fn clear(&mut self, p: usize) -> bool
        ensures answer { result ≡ nat_lt p (tally_span self.old.cells) }
        ensures span { tally_span self.new.cells ≡ tally_span self.old.cells }
        ensures after { (q : ℕ) → in_cells self.new.cells q ≡ (in_cells self.old.cells q && not (q == p)) }
        ensures counts { (q : ℕ) → counted self.new.cells q ≡ (if nat_eq q p then 0 else counted self.old.cells q) }
    {
        if p >= 512 {
            return false;
        }
        self.cells[p] = 0;
        true
    }
}

#[cfg(test)]
mod tests {
    use super::*;

    #[test]
    fn a_full_cell_stays_full(rt: HostRuntime) {
        let mut board = TallyBoard {
            cells: [u32::MAX; 512],
        };
        assert!(rt; board.put(7) && board.put(7));
        assert_eq!(rt; board.count(7), u32::MAX);
        assert!(rt; board.clear(7) && !board.held(7) && board.put(7));
        assert!(rt; board.count(7) == 1 && board.count(8) == u32::MAX && board.count(512) == 0);
    }
}
