// One calibration of a logger, carried out on a fact board step by step.
#![tactic(auto)]

ghost use Rattle.std.specs.Prelude.{◌≡◌, ℕ, true, false, ◌&&◌, ◌||◌, MatchOption, nat_lt};
ghost use Rattle.books.specs.Book.{after};
ghost use Rattle.calibrate.specs.Shelf.{shelved};
ghost use Rattle.facts.specs.Sets.{holds};
ghost use Rattle.racks.specs.Rack.{rack_model, rack_step_number, step_on};

use boards::{BitBoard, Board, do_step};
use books::Book;
use racks::{Rack, RackFact, RackStep};
use std::io;

// The calibration of logger 0 in bath 0: put in, let settle, read, take out.
const STEPS: [RackStep; 4] = [
    RackStep::Put { logger: 0, bath: 0 },
    RackStep::Settle { bath: 0 },
    RackStep::Read { logger: 0, bath: 0 },
    RackStep::TakeOut { logger: 0, bath: 0 },
];

// Does a step of the rack on the board, and answers its number; none, and nothing changed, where the rack has no such step.
fn carry_out(rack: &Rack, board: &mut BitBoard, step: RackStep) -> Option<usize>
    ensures { MatchOption result ((step_on rack.now.loggers rack.now.baths step ≡ false) × (board.new ≡ board.old)) (λ a. (step_on rack.now.loggers rack.now.baths step ≡ true) × (a ≡ rack_step_number rack.now.loggers rack.now.baths step) × ((q : ℕ) → holds board.new.facts.words q ≡ (after (rack_model rack.now.loggers rack.now.baths) (holds board.old.facts.words) a q && nat_lt q 1024))) }
{
    let a = rack.number(step)?;
    do_step(rack, board, a);
    Some(a)
}

// Puts every logger on the shelf, and leaves the other facts.
fn shelve(rack: &Rack, board: &mut BitBoard)
    ensures { (q : ℕ) → holds board.new.facts.words q ≡ (holds board.old.facts.words q || shelved rack.now.baths rack.now.loggers rack.now.loggers q) }
{
    for logger in 0..rack.loggers() {
        if let Some(p) = rack.number(RackFact::OnShelf { logger }) {
            board.put(p);
        }
    }
}

// The facts on the board, by number and in words.
fn print_board(rt: &HostRuntime, rack: &Rack, board: &BitBoard) -> io::Result<()> {
    for p in 0..rack.facts() {
        if board.held(p)
            && let Some(fact) = rack.name::<RackFact>(p)
        {
            print!(rt; "; {p} {fact}")?;
        }
    }
    println!(rt; "")
}

// The readings that are done.
fn print_readings(rt: &HostRuntime, rack: &Rack, board: &BitBoard) -> io::Result<()> {
    for p in 0..rack.facts() {
        if board.held(p)
            && let Some(RackFact::ReadIn { logger, bath }) = rack.name(p)
        {
            println!(rt; "done: logger {logger} read in bath {bath}")?;
        }
    }
    Ok(())
}

fn main(rt: HostRuntime) -> anyhow::Result<()> {
    let rack = Rack::new(2, 1)?;
    let mut board = BitBoard::new();
    shelve(&rack, &mut board);
    print!(rt; "start")?;
    print_board(&rt, &rack, &board)?;
    for step in STEPS {
        if carry_out(&rack, &mut board, step).is_some() {
            print!(rt; "{step}")?;
            print_board(&rt, &rack, &board)?;
        }
    }
    print_readings(&rt, &rack, &board)?;
    Ok(())
}
