//! The program `session` with a phrase file that sets no table, stored: it answers nothing, and its status is 1.
#![tactic(auto)]

use floor_session::program::run;

fn main(rt: HostRuntime) -> anyhow::Result<()> {
    run(&rt)
}
