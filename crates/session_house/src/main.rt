//! The program `session` with the settings and the phrases of a house, stored: a market by yield, over a prepaid centre under
//! two firm caps.
#![tactic(auto)]

use floor_session::program::run;

fn main(rt: HostRuntime) -> anyhow::Result<()> {
    run(&rt)
}
