// One command.
use crate::files::write_sheet;
use crate::halt::{Halt, tell, tell_meaning};
use crate::running::run_script;
use crate::sheets_of::{Sheets, read_sheets};
use anyhow::anyhow;
use book_writer::write_book;
use cards::RunFault;
use checks::check_bytes;
use commands::{Command, Output, accepted, help, parse};
use facts::FactSet;
use listings::list;
use racks::Rack;
use recasts::recast;
use std::alloc::Global;
use std::env;
use std::io::Write;

// What is written into a buffer as long as it needs; an empty buffer is lent first, and the length named for it is taken. A
// second write that fails is an error of the program, and no refusal.
fn filled<F: FnMut(&mut [u8]) -> Result<usize, RunFault>>(
    heap: Global,
    what: &str,
    mut write: F,
) -> Result<Vec<u8>, Halt>
    requires { F.IsAlwaysCallable write }
{
    let needed = match write(&mut []) {
        Err(RunFault::TooShort(short)) => short.needed,
        answer => answer?,
    };
    let mut bytes = vec![in heap; 0u8; needed]?;
    match write(bytes.as_mut_slice()) {
        Ok(_) => Ok(bytes),
        Err(_) => Err(Halt::Failed(anyhow!("the {what} has another length than it said"))),
    }
}

// Prints the listing of both sheets, and nothing else.
fn print_listing(rt: &HostRuntime, sheets: &Sheets) -> Result<(), Halt> {
    let book = sheets.book.as_slice();
    let task = sheets.task.as_slice();
    let text = filled(rt.alloc(), "listing", |out| Ok(list(book, task, out)?))?;
    Ok(rt.stdout().write_all(text.as_slice())?)
}

// Prints whether the plan is accepted.
fn print_check(rt: &HostRuntime, sheets: &Sheets) -> Result<(), Halt> {
    sheets.keep_length()?;
    let mut facts = FactSet::empty();
    check_bytes(sheets.book.as_slice(), sheets.task.as_slice(), &mut facts)?;
    Ok(rt.println(accepted(rt.alloc(), &facts)?)?)
}

// Writes the sheet of the rack's step book.
fn write_rack(
    rt: &HostRuntime,
    loggers: usize,
    baths: usize,
    output: Output<'_>,
) -> Result<(), Halt> {
    let rack = Rack::new(loggers, baths)?;
    let sheet = filled(rt.alloc(), "sheet", |out| Ok(write_book(&rack, out)?))?;
    Ok(write_sheet(rt, output, sheet.as_slice())?)
}

// Writes the sheet of the recast plan.
fn write_recast(rt: &HostRuntime, sheets: &Sheets, output: Output<'_>) -> Result<(), Halt> {
    let (book, task) = sheets.open()?;
    let sheet = filled(rt.alloc(), "sheet", |out| recast(&book, &task, out))?;
    Ok(write_sheet(rt, output, sheet.as_slice())?)
}

// Does what the words ask for; where they ask for nothing, says what is wanted.
fn obey(rt: &HostRuntime, words: &[String]) -> Result<(), Halt> {
    match parse(words) {
        Some(Command::List) => print_listing(rt, &read_sheets(rt)?),
        Some(
            Command::Rack {
                loggers,
                baths,
                output,
            },
        ) => write_rack(rt, loggers, baths, output),
        Some(Command::Check) => print_check(rt, &read_sheets(rt)?),
        Some(Command::Recast(output)) => write_recast(rt, &read_sheets(rt)?, output),
        Some(Command::Run) => Ok(run_script(rt, &read_sheets(rt)?)?),
        Some(Command::Explain(number)) => Ok(tell_meaning(rt, number)?),
        Some(Command::Help) => Ok(rt.println(help())?),
        None => {
            rt.eprintln(help())?;
            Err(Halt::Failed(anyhow!("the words ask for none of these")))
        }
    }
}

// Does what the words ask for, and tells a refusal.
pub fn perform(rt: &HostRuntime, words: &[String]) -> anyhow::Result<()> {
    obey(rt, words).or_else(|halt| tell(rt, halt))
}

// Does what the words behind the program's name ask for, and tells an error.
pub fn answer(rt: &HostRuntime) -> anyhow::Result<()> {
    let words: Vec<String> = env::args(rt)?.skip(1).collect(rt.alloc())?;
    perform(rt, words.as_slice())
}
