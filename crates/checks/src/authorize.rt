ghost use Rattle.std.specs.Prelude.{MatchBool};
ghost use Rattle.checks.specs.Shared.{Clear, Clashes, Shares, Apart};

use books::StepFacts;

// Whether a step with the facts `a` authorizes another with the facts `b`: it adds nothing that the other deletes, and
// deletes nothing that the other needs.
pub(crate) fn authorizes(a: &StepFacts, b: &StepFacts) -> bool
    ensures { MatchBool result (Clear a.now b.now) (Clashes a.now b.now) }
{
    !a.adds.intersects(&b.deletes) && !a.deletes.intersects(&b.needs)
}

// Whether a step with the facts `a` adds a fact that one with the facts `b` needs.
pub(crate) fn feeds(a: &StepFacts, b: &StepFacts) -> bool
    ensures { MatchBool result (Shares a.now.adds b.now.needs) (Apart a.now.adds b.now.needs) }
{
    a.adds.intersects(&b.needs)
}
