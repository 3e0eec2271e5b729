// The worked examples of docs/RULES.md, as statements about the very definitions that the contracts of the other crates cite.
#![tactic(auto)]

ghost use Rattle.worked.specs.Examples.{WorkedExamples};

// Every worked example holds.
pub fn worked_examples_hold()
    ensures { WorkedExamples }
{}
