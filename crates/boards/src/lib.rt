// Boards: sets of facts that steps change.
#![tactic(auto)]

pub mod bit_board;
pub mod board;
pub mod changes;
pub mod tally_board;

pub use bit_board::BitBoard;
pub use board::Board;
pub use changes::{do_step, replace, set_to};
pub use tally_board::TallyBoard;

#[cfg(test)]
mod tests {
    use super::*;
    use facts::FactSet;
    use std::process::Abort;

    // `last` is the last fact below the board's span.
    fn edge<D: Board>(rt: &impl Abort, board: &mut D, last: usize, past: usize) {
        assert_eq!(rt; board.span(), past);
        assert!(rt; !board.held(last) && board.put(last) && board.put(last) && board.held(last));
        assert!(rt; !board.put(past) && !board.held(past) && !board.clear(past));
        assert!(rt; board.clear(last) && board.clear(last) && !board.held(last));
    }

    #[test]
    fn spans(rt: HostRuntime) {
        edge(&rt, &mut BitBoard::new(), 1023, 1024);
        edge(&rt, &mut TallyBoard::new(), 511, 512);
    }

    #[test]
    fn adds_win_over_deletes(rt: HostRuntime) {
        let mut board = BitBoard::new();
        board.put(3);
        board.put(64);
        let mut adds = FactSet::empty();
        adds.insert(64);
        let mut deletes = adds;
        deletes.insert(3);
        replace(&mut board, &deletes, &adds);
        assert!(rt; !board.held(3) && board.held(64));
    }

    #[test]
    fn set_anew(rt: HostRuntime) {
        let mut board = TallyBoard::new();
        board.put(0);
        board.put(5);
        board.put(5);
        let mut facts = FactSet::empty();
        facts.insert(5);
        facts.insert(600);
        set_to(&mut board, &facts);
        assert!(rt; board.count(0) == 0 && board.count(5) == 1 && !board.held(600));
    }
}
