// Why a command is not done, and how that is told.
use cards::RunFault;
use checks::PlanFault;
use commands::{Told, explain};
use racks::RackFault;
use sheets::{TooLong, TooShort};
use std::alloc::AllocError;
use std::fmt::Display;
use std::io;

// Why a command is not done: what it asks for is refused, or the program could not do it.
#[derive(Drop)]
pub enum Halt {
    TooLong(TooLong),
    Plan(PlanFault),
    Rack(RackFault),
    Run(RunFault),
    Failed(anyhow::Error),
}

impl From<TooLong> for Halt {
    fn from(fault: TooLong) -> Halt {
        Halt::TooLong(fault)
    }
}

impl From<PlanFault> for Halt {
    fn from(fault: PlanFault) -> Halt {
        Halt::Plan(fault)
    }
}

impl From<RackFault> for Halt {
    fn from(fault: RackFault) -> Halt {
        Halt::Rack(fault)
    }
}

// A plan's fault stays one.
impl From<RunFault> for Halt {
    fn from(fault: RunFault) -> Halt {
        match fault {
            RunFault::Plan(fault) => Halt::Plan(fault),
            other => Halt::Run(other),
        }
    }
}

impl From<TooShort> for Halt {
    fn from(fault: TooShort) -> Halt {
        Halt::Run(RunFault::TooShort(fault))
    }
}

impl From<io::Error> for Halt {
    fn from(error: io::Error) -> Halt {
        Halt::Failed(anyhow::Error::from(error))
    }
}

impl From<AllocError> for Halt {
    fn from(error: AllocError) -> Halt {
        Halt::Failed(anyhow::Error::from(error))
    }
}

impl From<anyhow::Error> for Halt {
    fn from(error: anyhow::Error) -> Halt {
        Halt::Failed(error)
    }
}

// Says what the refusal with that number means.
pub fn tell_meaning(rt: &HostRuntime, number: usize) -> io::Result<()> {
    match explain(number) {
        Some(text) => rt.println(text),
        None => println!(rt; "there is no refusal {number}: they are numbered 1 to 20"),
    }
}

// Tells a refusal in its words, and what it means.
fn tell_refusal(rt: &HostRuntime, words: impl Display + Drop, number: u8) -> io::Result<()> {
    rt.println(words)?;
    tell_meaning(rt, usize::from(number))
}

// Tells why a command is refused; an error of the program goes on.
pub fn tell(rt: &HostRuntime, halt: Halt) -> anyhow::Result<()> {
    match halt {
        Halt::TooLong(fault) => Ok(tell_refusal(rt, fault, fault.number())?),
        Halt::Plan(fault) => Ok(tell_refusal(rt, Told { fault }, fault.number())?),
        Halt::Rack(fault) => Ok(tell_refusal(rt, fault, fault.number())?),
        Halt::Run(fault) => Ok(rt.println(fault)?),
        Halt::Failed(error) => Err(error),
    }
}
