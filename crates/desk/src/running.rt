// A crew's script.
use crate::halt::{Halt, tell};
use crate::sheets_of::Sheets;
use anyhow::anyhow;
use boards::BitBoard;
use cards::{Card, Reply, Request};
use checks::{Arrangement, arrange};
use runs::carry_out;
use scripts::script;
use std::io::Read;
use timetables::{Seconds, weights};

// Opens both sheets, carries the requests out on their plan, and prints the replies, a line for each. What is bounded by 256
// places is in fixed memory, the replies are not.
fn carry(rt: &HostRuntime, sheets: &Sheets, requests: &[Request]) -> Result<(), Halt> {
    let (book, task) = sheets.open()?;
    let mut places = Arrangement::new();
    arrange(&book, &task, &mut places)?;
    let mut board = BitBoard::new();
    let mut card = Card::new();
    let mut replies = vec![in rt.alloc(); Reply::Granted; requests.len()]?;
    let mut begins = [Seconds { count: 0 }; 256];
    let mut sheet = [0u8; 8192];
    carry_out(
        &book,
        &task,
        &mut board,
        &mut card,
        requests,
        replies.as_mut_slice(),
        &weights(&book, &places),
        &mut begins,
        &mut sheet,
    )?;
    for reply in replies.as_slice() {
        rt.println(*reply)?;
    }
    Ok(())
}

// Reads a script from standard input and carries it out; a text that is no script does nothing.
fn carry_script(rt: &HostRuntime, sheets: &Sheets) -> Result<(), Halt> {
    let mut text = String::new(rt.alloc());
    rt.stdin().read_to_string(&mut text)?;
    match script(rt.alloc(), text.as_str()) {
        Ok(requests) => carry(rt, sheets, requests.as_slice()),
        Err(fault) => {
            rt.eprintln(fault)?;
            Err(Halt::Failed(anyhow!("nothing of the script is done")))
        }
    }
}

// Reads a script from standard input, carries it out, and tells a refusal.
pub fn run_script(rt: &HostRuntime, sheets: &Sheets) -> anyhow::Result<()> {
    carry_script(rt, sheets).or_else(|halt| tell(rt, halt))
}
