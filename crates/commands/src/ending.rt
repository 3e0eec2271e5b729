// The answer to an accepted plan.
ghost use Rattle.std.specs.Prelude.{◌≡◌, ◌++◌, IfOk, string_bytes, codes};
ghost use Rattle.facts.specs.Sets.{holds};
ghost use Rattle.commands.specs.Accepted.{listed};

use facts::FactSet;
use std::alloc::{AllocError, Global};
use std::fmt::Write;

// The facts that the plan ends in, in ascending order.
pub fn accepted(heap: Global, facts: &FactSet) -> Result<String, AllocError>
    ensures { IfOk result (λ s. string_bytes s ≡ codes "accepted: facts" ++ listed (holds facts.now.words) 1024) }
{
    let mut text = String::from_str(heap, "accepted: facts")?;
    for p in facts.iter() {
        write!(text, " {p}")?;
    }
    Ok(text)
}
