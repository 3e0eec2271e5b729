ghost use Rattle.scripts.specs.FaultText.{script_text};
ghost use Rattle.std.specs.Prelude.{Some};

use crate::text::ScriptFault;
use std::error::Error;
use std::fmt;

// What is wrong with a script, in words.
impl fmt::Display for ScriptFault {
    ghost output = { λ f. Some (script_text f) };

    fn fmt<W: fmt::Write>(&self, f: &mut fmt::Formatter<W>) -> fmt::Result {
        match *self {
            ScriptFault::NoRequest { line } => write!(
                f,
                "line {line} is no request: begin N, finish N, put back N or look N is wanted"
            ),
            ScriptFault::NoMemory => write!(f, "no memory for the script"),
        }
    }
}

impl Error for ScriptFault {}
