// Opens the book and the task of the folder it runs in, checks the plan, times it, and works it off on a bit board.
#![tactic(auto)]

use boards::BitBoard;
use book_sheets::BookSheet;
use books::Book;
use cards::{Card, RunFault, begin, finish, issue};
use checks::check;
use desk::files::read_sheet;
use facts::FactSet;
use sheets::keeps_length;
use std::io;
use task_sheets::TaskSheet;
use timetables::{Seconds, StepCount, strata, timetable, weights};

fn print_book(rt: &HostRuntime, book: &BookSheet) -> io::Result<()> {
    println!(rt;
        "book opened: facts {} steps {}",
        book.facts(),
        book.steps()
    )
}

fn print_task(rt: &HostRuntime, task: &TaskSheet) -> io::Result<()> {
    let facts = task.facts();
    let steps = task.steps();
    let levels = task.levels();
    let total = task.total();
    println!(rt; "task opened: facts {facts} steps {steps} levels {levels} places {total}")
}

// Prints the facts that an accepted plan ends in, without asking for memory.
fn print_facts(rt: &HostRuntime, facts: &FactSet) -> io::Result<()> {
    print!(rt; "accepted: facts")?;
    for p in facts.iter() {
        print!(rt; " {p}")?;
    }
    println!(rt; "")
}

// Checks the plan of the task by the book.
fn print_check(rt: &HostRuntime, book: &BookSheet, task: &TaskSheet) -> io::Result<()> {
    let mut facts = FactSet::empty();
    match check(book, task, &mut facts) {
        Ok(()) => print_facts(rt, &facts),
        Err(fault) => println!(rt; "plan {fault}"),
    }
}

// Each place with its step, its level, its stratum and when it begins at the earliest.
fn print_places(rt: &HostRuntime, book: &BookSheet, card: &Card) -> io::Result<()> {
    let mut stratum = [StepCount { count: 0 }; 256];
    let mut begins = [Seconds { count: 0 }; 256];
    let heights = strata(card, &mut stratum);
    let times = timetable(card, &weights(book, card.plan()), &mut begins);
    if let (Ok(height), Ok(end)) = (heights, times) {
        println!(rt; "strata {} seconds {}", height.count, end.count)?;
    }
    for (u, place) in card.plan().places().iter().enumerate() {
        let step = place.step;
        let level = place.level;
        let stratum = stratum[u].count;
        let at = begins[u].count;
        println!(rt; "{u} step {step} level {level} stratum {stratum} at {at}")?;
    }
    Ok(())
}

// Prints a call at a place, and its answer.
fn print_call(
    rt: &HostRuntime,
    call: &str,
    place: usize,
    answer: Result<(), RunFault>,
) -> io::Result<()> {
    match answer {
        Ok(()) => println!(rt; "{call} {place}: granted"),
        Err(fault) => println!(rt; "{call} {place}: {fault}"),
    }
}

// Begins and finishes every place, from the lowest on, and prints each answer.
fn print_run(
    rt: &HostRuntime,
    book: &BookSheet,
    board: &mut BitBoard,
    card: &mut Card,
) -> io::Result<()> {
    for u in 0..card.count() {
        print_call(rt, "begin", u, begin(book, board, card, u))?;
        print_call(rt, "finish", u, finish(book, board, card, u))?;
    }
    Ok(())
}

// Issues the task, times its places and works them off.
fn print_issue(rt: &HostRuntime, book: &BookSheet, task: &TaskSheet) -> io::Result<()> {
    let mut board = BitBoard::new();
    let mut card = Card::new();
    match issue(book, &mut board, &mut card, task) {
        Ok(()) => {
            println!(rt; "issue: granted")?;
            print_places(rt, book, &card)?;
            print_run(rt, book, &mut board, &mut card)
        }
        Err(fault) => println!(rt; "issue: {fault}"),
    }
}

// Opens both sheets, book first, and goes on with the plan.
fn print_sheets(rt: &HostRuntime, book_bytes: &[u8], task_bytes: &[u8]) -> io::Result<()> {
    let mut book = BookSheet::new();
    if let Err(fault) = book.open(book_bytes) {
        return println!(rt; "book {fault}");
    }
    print_book(rt, &book)?;
    let mut task = TaskSheet::new();
    if let Err(fault) = task.open(task_bytes) {
        return println!(rt; "task {fault}");
    }
    print_task(rt, &task)?;
    print_check(rt, &book, &task)?;
    print_issue(rt, &book, &task)
}

// Reads both files; a sheet that is too long is refused before either is opened.
fn run(rt: &HostRuntime) -> anyhow::Result<()> {
    let book = read_sheet(rt, "book.bin")?;
    let task = read_sheet(rt, "task.bin")?;
    if let Err(fault) = keeps_length(book.as_slice()) {
        println!(rt; "book {fault}")?;
    } else if let Err(fault) = keeps_length(task.as_slice()) {
        println!(rt; "task {fault}")?;
    } else {
        print_sheets(rt, book.as_slice(), task.as_slice())?;
    }
    Ok(())
}

fn main(rt: HostRuntime) -> anyhow::Result<()> {
    run(&rt)
}
