// Checks a house's phrase text before it goes to the floor.
#![tactic(auto)]

use phrase_report::program::run;

fn main(rt: HostRuntime) -> anyhow::Result<()> {
    run(&rt)
}
