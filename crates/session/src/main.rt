//! Runs one market: by rate, over a position centre. Command lines come in, and each is answered by a printed line.
#![tactic(auto)]

use floor_session::program::run;

fn main(rt: HostRuntime) -> anyhow::Result<()> {
    run(&rt)
}
