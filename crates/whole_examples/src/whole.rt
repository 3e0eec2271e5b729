// A whole run in one call: issue, requests, timetable and recast on the rack of 2 loggers and 1 bath.
use boards::{BitBoard, Board};
use cards::{Attempt, Card, Event, Reply, Request, RunFault, State};
use examples::given::{READ_UNSETTLED, TWO_LEVELS};
use racks::Rack;
use runs::{Outcome, carry_out};
use std::process::Abort;
use std::test::Fail;
use task_sheets::TaskSheet;
use timetables::Seconds;

// The seconds of the places of the two levels.
const WEIGHTS: [Seconds; 4] = [
    Seconds { count: 60 },
    Seconds { count: 1800 },
    Seconds { count: 60 },
    Seconds { count: 60 },
];

// What the buffers hold beside the board and the card.
#[derive(Clone, Copy)]
struct Buffers {
    replies: [Reply; 7],
    begins: [Seconds; 5],
    sheet: [u8; 48],
}

// Buffers that nothing was written into.
fn untouched() -> Buffers {
    Buffers {
        replies: [Reply::Granted; 7],
        begins: [Seconds { count: 9 }; 5],
        sheet: [9; 48],
    }
}

// A call at a place.
fn call(event: Event, place: usize) -> Request {
    Request::Call(Attempt { event, place })
}

// The requests of the script: 18, a grant, a look, 17, 16, a grant.
fn script() -> [Request; 6] {
    [
        call(Event::Begin, 1),
        call(Event::Begin, 0),
        Request::Look(0),
        call(Event::Begin, 0),
        call(Event::PutBack, 4),
        call(Event::Finish, 0),
    ]
}

// Carries the script out with the front of each buffer, as long as there is room given.
fn carried(
    rt: &impl Abort,
    bytes: &[u8],
    board: &mut BitBoard,
    room: (usize, usize, usize),
    lent: &mut Buffers,
) -> Result<Result<Outcome<Seconds>, RunFault>, Fail> {
    let rack = Rack::new(2, 1)?;
    let mut task = TaskSheet::new();
    assert!(rt; task.open(bytes).is_ok());
    let mut card = Card::new();
    let (told, begun, long) = room;
    Ok(carry_out(
        &rack,
        &task,
        board,
        &mut card,
        &script(),
        lent.replies.get_mut(..told).ok_or("too few replies")?,
        &WEIGHTS,
        lent.begins.get_mut(..begun).ok_or("too few begins")?,
        lent.sheet.get_mut(..long).ok_or("too few bytes")?,
    ))
}

#[test]
fn a_script_is_carried_out(rt: HostRuntime) -> Result<(), Fail> {
    let mut board = BitBoard::new();
    let mut lent = untouched();
    let answer = carried(&rt, TWO_LEVELS, &mut board, (7, 5, 48), &mut lent)?;
    assert_eq!(rt;
        answer.map(|outcome| (outcome.end.count, outcome.written)),
        Ok((1980, 46))
    );
    let seen = Reply::Seen {
        step: 0,
        level: 1,
        state: State::InHand,
    };
    let first = Reply::Refused(RunFault::Unfinished { lowest: 0 });
    assert_eq!(rt; (lent.replies[0], lent.replies[1]), (first, Reply::Granted));
    let again = Reply::Refused(RunFault::WrongState);
    assert_eq!(rt; (lent.replies[2], lent.replies[3]), (seen, again));
    let nowhere = Reply::Refused(RunFault::NoPlace);
    assert_eq!(rt;
        (lent.replies[4], lent.replies[5]),
        (nowhere, Reply::Granted)
    );
    assert!(rt; board.held(0) && board.held(3) && !board.held(2) && !board.held(4));
    assert!(rt;
        lent.begins[2].count == 1860 && lent.begins[3].count == 1920 && lent.begins[4].count == 9
    );
    assert!(rt; lent.sheet[5] == 4 && lent.sheet[45] == 1 && lent.sheet[46] == 9);
    Ok(())
}

// Whether the run is refused so, with the board and the buffers as they were.
fn refused(
    rt: &impl Abort,
    bytes: &[u8],
    room: (usize, usize, usize),
    number: u8,
) -> Result<(), Fail> {
    let mut board = BitBoard::new();
    board.put(6);
    let mut lent = untouched();
    let answer = carried(rt, bytes, &mut board, room, &mut lent)?;
    assert_eq!(rt; answer.err().map(|fault| fault.number()), Some(number));
    assert!(rt; board.held(6) && !board.held(2) && !board.held(3));
    assert_eq!(rt; lent.replies[0], Reply::Granted);
    assert!(rt; lent.begins[0].count == 9 && lent.sheet[0] == 9 && lent.sheet[19] == 9);
    Ok(())
}

#[test]
fn a_refused_run_changes_nothing(rt: HostRuntime) -> Result<(), Fail> {
    refused(&rt, TWO_LEVELS, (5, 5, 48), 19)?;
    refused(&rt, TWO_LEVELS, (6, 3, 48), 19)?;
    refused(&rt, TWO_LEVELS, (6, 4, 45), 19)?;
    refused(&rt, READ_UNSETTLED, (0, 0, 0), 11)
}
