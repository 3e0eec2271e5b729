// Cards issued, begun, finished and put back, on the rack of 2 loggers and 1 bath.
use crate::given::{SIDE_BY_SIDE, TWO_LEVELS};
use boards::{BitBoard, Board, TallyBoard};
use book_sheets::BookSheet;
use cards::{Card, RunFault, begin, finish, issue, put_back};
use racks::Rack;
use std::process::Abort;
use std::test::Fail;
use task_sheets::TaskSheet;

// A book of 513 facts and no steps, and a task for it without levels.
const WIDE: &[u8; 12] = b"\
    \x02\x01\x00\x00\x00\x00\x00\x0c\x00\x00\x00\x0c";

const WIDE_TASK: &[u8; 24] = b"\
    \x02\x01\x00\x00\x00\x00\x00\x00\x00\x00\x00\x14\x00\x00\x00\x16\x00\x00\x00\x18\
    \x00\x00\x00\x00";

// Whether the board holds just the facts of these digits, of the facts 0 to 7.
pub(crate) fn holds<D: Board>(rt: &impl Abort, board: &D, digits: &[u8]) {
    for digit in b'0'..=b'7' {
        assert_eq!(rt;
            board.held((digit - b'0') as usize),
            digits.contains(&digit)
        );
    }
}

#[test]
fn a_new_card_waits_for_its_first_place(rt: HostRuntime) -> Result<(), Fail> {
    let rack = Rack::new(2, 1)?;
    let mut task = TaskSheet::new();
    assert!(rt; task.open(TWO_LEVELS).is_ok());
    let mut board = BitBoard::new();
    board.put(6);
    let mut card = Card::new();
    assert_eq!(rt; issue(&rack, &mut board, &mut card, &task), Ok(()));
    holds(&rt, &board, b"23");
    assert_eq!(rt;
        begin(&rack, &mut board, &mut card, 1),
        Err(RunFault::Unfinished { lowest: 0 })
    );
    assert_eq!(rt;
        begin(&rack, &mut board, &mut card, 3),
        Err(RunFault::Unfinished { lowest: 1 })
    );
    assert_eq!(rt;
        begin(&rack, &mut board, &mut card, 4),
        Err(RunFault::NoPlace)
    );
    assert_eq!(rt; begin(&rack, &mut board, &mut card, 0), Ok(()));
    assert_eq!(rt;
        issue(&rack, &mut board, &mut card, &task),
        Err(RunFault::InHand)
    );
    assert_eq!(rt; finish(&rack, &mut board, &mut card, 0), Ok(()));
    holds(&rt, &board, b"03");
    assert_eq!(rt;
        begin(&rack, &mut board, &mut card, 0),
        Err(RunFault::WrongState)
    );
    Ok(())
}

#[test]
fn two_in_hand_finish_in_either_order(rt: HostRuntime) -> Result<(), Fail> {
    let rack = Rack::new(2, 1)?;
    let mut task = TaskSheet::new();
    assert!(rt; task.open(SIDE_BY_SIDE).is_ok());
    let mut board = TallyBoard::new();
    let mut card = Card::new();
    assert_eq!(rt; issue(&rack, &mut board, &mut card, &task), Ok(()));
    assert_eq!(rt; begin(&rack, &mut board, &mut card, 0), Ok(()));
    assert_eq!(rt; begin(&rack, &mut board, &mut card, 1), Ok(()));
    assert_eq!(rt; finish(&rack, &mut board, &mut card, 1), Ok(()));
    holds(&rt, &board, b"12");
    assert_eq!(rt; put_back(&rack, &mut board, &mut card, 0), Ok(()));
    assert_eq!(rt;
        put_back(&rack, &mut board, &mut card, 0),
        Err(RunFault::WrongState)
    );
    assert_eq!(rt; begin(&rack, &mut board, &mut card, 0), Ok(()));
    assert_eq!(rt; finish(&rack, &mut board, &mut card, 0), Ok(()));
    holds(&rt, &board, b"01");
    assert_eq!(rt; issue(&rack, &mut board, &mut card, &task), Ok(()));
    holds(&rt, &board, b"23");
    Ok(())
}

#[test]
fn a_board_must_have_room(rt: HostRuntime) {
    let mut book = BookSheet::new();
    assert!(rt; book.open(WIDE).is_ok());
    let mut task = TaskSheet::new();
    assert!(rt; task.open(WIDE_TASK).is_ok());
    let mut card = Card::new();
    let mut tally = TallyBoard::new();
    assert_eq!(rt;
        issue(&book, &mut tally, &mut card, &task),
        Err(RunFault::SpanTooSmall)
    );
    let mut bits = BitBoard::new();
    assert_eq!(rt; issue(&book, &mut bits, &mut card, &task), Ok(()));
}
