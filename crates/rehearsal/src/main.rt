//! Rehearses scenarios: the settings of a house and calls in words, each line printed with its answer.
#![tactic(auto)]

use scenario::program::run;

fn main(rt: HostRuntime) -> anyhow::Result<()> {
    run(&rt)
}
