// The numbers that are answered.
ghost use Rattle.std.specs.Prelude.{◌≡◌};
ghost use Rattle.bench.specs.Told.{short, refused, told_length, told_recast, told_run};

use cards::RunFault;
use sheets::TooShort;

// A buffer is too short: this number, and the length that is needed.
const SHORT: u64 = 0x1_0000_0000;

// Refused: this number and the refusal's.
const REFUSED: u64 = 0x2_0000_0000;

// The number for a buffer that is too short.
fn too_short(fault: TooShort) -> u64
    ensures { result ≡ short fault.needed }
{
    SHORT.saturating_add(fault.needed as u64)
}

// The number for a refusal.
fn refused(fault: RunFault) -> u64
    ensures { result ≡ refused fault }
{
    REFUSED + u64::from(fault.number())
}

// The number for a length.
pub(crate) fn length(answer: Result<usize, TooShort>) -> u64
    ensures { result ≡ told_length answer }
{
    match answer {
        Ok(n) => n as u64,
        Err(fault) => too_short(fault),
    }
}

// The number for a recast.
pub(crate) fn recast(answer: Result<usize, RunFault>) -> u64
    ensures { result ≡ told_recast answer }
{
    match answer {
        Ok(n) => n as u64,
        Err(RunFault::TooShort(fault)) => too_short(fault),
        Err(fault) => refused(fault),
    }
}

// The number for a run. A buffer that is too short for the records has one number, whatever length is needed.
pub(crate) fn run(answer: Result<usize, RunFault>) -> u64
    ensures { result ≡ told_run answer }
{
    match answer {
        Ok(n) => n as u64,
        Err(RunFault::TooShort(_)) => SHORT,
        Err(fault) => refused(fault),
    }
}
