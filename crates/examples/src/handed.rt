// A run that borrows its board and card, and gives them back.
use crate::given::SIDE_BY_SIDE;
use crate::ran::holds;
use boards::BitBoard;
use cards::{Attempt, Card, Event, Reply, Request, Run, RunFault, State, reply};
use racks::Rack;
use std::test::Fail;
use task_sheets::TaskSheet;

#[test]
fn a_run_hands_board_and_card_back(rt: HostRuntime) -> Result<(), Fail> {
    let rack = Rack::new(2, 1)?;
    let mut task = TaskSheet::new();
    assert!(rt; task.open(SIDE_BY_SIDE).is_ok());
    let mut board = BitBoard::new();
    let mut card = Card::new();
    let mut run = Run::new(&rack, &mut board, &mut card);
    assert_eq!(rt; run.issue(&task), Ok(()));
    assert_eq!(rt; run.begin(0), Ok(()));
    assert_eq!(rt; run.begin(1), Ok(()));
    assert_eq!(rt; run.look(1), Ok((1, 2, State::InHand)));
    assert_eq!(rt; run.look(2), Err(RunFault::NoPlace));
    assert_eq!(rt; run.finish(1), Ok(()));
    assert_eq!(rt; run.put_back(0), Ok(()));
    drop(run);
    holds(&rt, &board, b"12");
    let seen = Reply::Seen {
        step: 1,
        level: 2,
        state: State::Finished,
    };
    assert_eq!(rt; reply(&rack, &mut board, &mut card, Request::Look(1)), seen);
    let again = Request::Call(Attempt {
        event: Event::Begin,
        place: 0,
    });
    assert_eq!(rt; reply(&rack, &mut board, &mut card, again), Reply::Granted);
    assert_eq!(rt;
        reply(&rack, &mut board, &mut card, again),
        Reply::Refused(RunFault::WrongState)
    );
    Ok(())
}
