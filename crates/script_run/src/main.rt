// The bench plan checker, run in the gate on a script of a crew.
#![tactic(auto)]

use desk::answer;

fn main(rt: HostRuntime) -> anyhow::Result<()> {
    answer(&rt)
}
