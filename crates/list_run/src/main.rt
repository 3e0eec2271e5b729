// The bench plan checker: what its words ask for is done in `desk`.
#![tactic(auto)]

use desk::answer;

fn main(rt: HostRuntime) -> anyhow::Result<()> {
    answer(&rt)
}
