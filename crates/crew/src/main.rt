// A crew of two at the rack of 2 loggers and 1 bath: both loggers are put in side by side, and then the bath settles.
#![tactic(auto)]

use boards::{BitBoard, Board};
use books::Book;
use cards::{Attempt, Card, Event, attempt, issue};
use racks::Rack;
use std::io;
use task_sheets::TaskSheet;

// Both loggers on the shelf; level 1 puts logger 0 in, level 2 puts logger 1 in, level 3 settles the bath; no goal.
const TASK: &[u8; 40] = b"\
    \x00\x07\x00\x07\x00\x03\x00\x03\x00\x00\x00\x14\x00\x00\x00\x1a\x00\x00\x00\x1c\
    \x00\x02\x00\x02\x00\x03\x00\x00\x00\x01\x00\x00\x00\x01\x00\x01\x00\x01\x00\x06";

// What the crew tries, in turn.
const SCRIPT: [Attempt; 12] = [
    Attempt {
        event: Event::Begin,
        place: 2,
    },
    Attempt {
        event: Event::Begin,
        place: 0,
    },
    Attempt {
        event: Event::Begin,
        place: 1,
    },
    Attempt {
        event: Event::Begin,
        place: 0,
    },
    Attempt {
        event: Event::Finish,
        place: 3,
    },
    Attempt {
        event: Event::Finish,
        place: 1,
    },
    Attempt {
        event: Event::PutBack,
        place: 0,
    },
    Attempt {
        event: Event::Begin,
        place: 2,
    },
    Attempt {
        event: Event::Begin,
        place: 0,
    },
    Attempt {
        event: Event::Finish,
        place: 0,
    },
    Attempt {
        event: Event::Begin,
        place: 2,
    },
    Attempt {
        event: Event::Finish,
        place: 2,
    },
];

// The facts on the board, by number.
fn print_board(rt: &HostRuntime, rack: &Rack, board: &BitBoard) -> io::Result<()> {
    print!(rt; "; facts")?;
    for p in 0..rack.facts() {
        if board.held(p) {
            print!(rt; " {p}")?;
        }
    }
    println!(rt; "")
}

// What is tried.
fn print_attempt(rt: &HostRuntime, tried: Attempt) -> io::Result<()> {
    let place = tried.place;
    match tried.event {
        Event::Begin => print!(rt; "begin {place}: "),
        Event::Finish => print!(rt; "finish {place}: "),
        Event::PutBack => print!(rt; "put back {place}: "),
    }
}

// Tries a call, and prints its answer and the board after it.
fn print_call(
    rt: &HostRuntime,
    rack: &Rack,
    board: &mut BitBoard,
    card: &mut Card,
    tried: Attempt,
) -> io::Result<()> {
    print_attempt(rt, tried)?;
    match attempt(rack, board, card, tried.event, tried.place) {
        Ok(()) => print!(rt; "granted")?,
        Err(fault) => print!(rt; "{fault}")?,
    }
    print_board(rt, rack, board)
}

fn main(rt: HostRuntime) -> anyhow::Result<()> {
    let rack = Rack::new(2, 1)?;
    let mut task = TaskSheet::new();
    if let Err(fault) = task.open(TASK) {
        println!(rt; "task {fault}")?;
        return Ok(());
    }
    let mut board = BitBoard::new();
    let mut card = Card::new();
    match issue(&rack, &mut board, &mut card, &task) {
        Ok(()) => print!(rt; "issue: granted")?,
        Err(fault) => print!(rt; "issue: {fault}")?,
    }
    print_board(&rt, &rack, &board)?;
    for tried in SCRIPT {
        print_call(&rt, &rack, &mut board, &mut card, tried)?;
    }
    Ok(())
}
