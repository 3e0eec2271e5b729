// The checker for other programs to link: each call takes the sheets as bytes and a lent buffer, and answers a number.
#![tactic(auto)]

ghost use Rattle.std.specs.Prelude.{◌≡◌, ℕ, Result};
ghost use Rattle.listings.specs.Listings.{Listed};
ghost use Rattle.cards.specs.declared.fault.RunFault.{RunFault as RunFaults};
ghost use Rattle.sheets.specs.declared.writing.TooShort.{TooShort as Short};
ghost use Rattle.bench.specs.Told.{told_length, told_recast, told_run};
ghost use Rattle.bench.specs.Reports.{CheckTold};
ghost use Rattle.bench.specs.Opening.{BytesRecast};
ghost use Rattle.bench.specs.Running.{span_for, BytesRun};

use boards::{BitBoard, TallyBoard};
use checks::check_bytes;
use facts::FactSet;
use listings::list;

mod opening;
mod records;
mod reports;
mod running;
mod told;

// Writes the listing of the two sheets.
#[unsafe(no_mangle)]
pub extern "C" fn bench_list(book: &[u8], task: &[u8], out: &mut [u8]) -> u64
    ensures { (x : Result ℕ Short) × Listed book.now task.now out.old x out.new × (result ≡ told_length x) }
{
    told::length(list(book, task, out))
}

// Writes the report of the check of the two sheets; 0, and nothing, to a buffer of fewer than 160 bytes.
#[unsafe(no_mangle)]
pub extern "C" fn bench_check(book: &[u8], task: &[u8], out: &mut [u8]) -> u64
    ensures { CheckTold book.now task.now out.old result out.new }
{
    if out.len() < reports::ROOM {
        return 0;
    }
    let mut facts = FactSet::empty();
    match check_bytes(book, task, &mut facts) {
        Ok(()) => reports::put_accepted(out, facts) as u64,
        Err(fault) => reports::put_refused(out, fault) as u64,
    }
}

// Writes the sheet of the recast task.
#[unsafe(no_mangle)]
pub extern "C" fn bench_recast(book: &[u8], task: &[u8], out: &mut [u8]) -> u64
    ensures { (x : Result ℕ RunFaults) × BytesRecast book.now task.now out.old x out.new × (result ≡ told_recast x) }
{
    told::recast(opening::recast_bytes(book, task, out))
}

// Issues the task on an empty board, a bit board where `tally` is 0 and else a tally board, and carries the script out:
// of each request the reply and the facts on the board after it are written. The board is chosen by a number, as programs
// in other languages can say it.
#[unsafe(no_mangle)]
pub extern "C" fn bench_run(
    book: &[u8],
    task: &[u8],
    script: &[u8],
    tally: u8,
    out: &mut [u8],
) -> u64
    ensures { (x : Result ℕ RunFaults) × BytesRun book.now task.now (span_for tally) script.now out.old x out.new × (result ≡ told_run x) }
{
    if tally == 0 {
        told::run(running::run_bytes(book, task, script, &mut BitBoard::new(), out))
    } else {
        told::run(running::run_bytes(book, task, script, &mut TallyBoard::new(), out))
    }
}
