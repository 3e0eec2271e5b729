// A whole script.
ghost use Rattle.std.specs.Prelude.{◌≡◌};
ghost use Rattle.scripts.specs.Scripts.{Scripted};
ghost use Rattle.scripts.specs.declared.text.ScriptFault.TheVariants.{NoMemory};

use crate::line::request;
use cards::Request;
use std::alloc::{AllocFailed, Global};

// Why a text is no script.
#[derive(Clone, Copy, PartialEq, Eq, Debug)]
pub enum ScriptFault {
    // this line, counted from 1, is no request
    NoRequest { line: usize },
    // there is no memory for the requests
    NoMemory,
}

impl<T: Drop> From<AllocFailed<T>> for ScriptFault {
    ghost from_gives = { λ _ r. r ≡ NoMemory };

    fn from(_refused: AllocFailed<T>) -> ScriptFault {
        ScriptFault::NoMemory
    }
}

// The requests of the text, one for each line, in turn; or the first line that is none.
pub fn script(heap: Global, text: &str) -> Result<Vec<Request>, ScriptFault>
    ensures { Scripted text.now result }
{
    let mut requests = Vec::new(heap);
    for line in text.split_terminator('\n') {
        let Some(asked) = request(line) else {
            return Err(ScriptFault::NoRequest {
                line: requests.len() + 1,
            });
        };
        requests.push(asked)?;
    }
    Ok(requests)
}
