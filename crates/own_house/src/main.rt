//! A house's own market: by yield, over a prepaid centre, under a firm cap. It is made, given the calls of a short day, and
//! shown.
#![tactic(auto)]

mod day;
mod show;

use crate::day::day;
use centres::PrepaidCentre;
use centres::firm_cap::FirmCap;
use centres::firm_table::FirmTable;
use centres::prepaid::Prepaid;
use dealing::call::Call;
use market::run::{Ran, run};
use market::yields::ByYield;
use std::alloc::Global;
use std::io;

/// Gives calls to a new market of this house, by yield. Each lot is prepaid by 200 of its account's deposit, and accounts
/// 201 and 202 are a firm that may come to 60 lots.
fn run_house(heap: Global, calls: &[Call]) -> anyhow::Result<Ran<ByYield, FirmCap<PrepaidCentre>>> {
    let mut accounts = PrepaidCentre::new(heap, Prepaid::new(200)?)?;
    for (account, deposit) in [(201, 10_000), (202, 6_000), (203, 20_000)] {
        accounts.add(account, deposit)?;
    }
    let mut centre = FirmCap::new(accounts, FirmTable::new(heap)?);
    centre.set_cap(1, 60)?;
    for account in [201, 202] {
        centre.place(account, 1)?;
    }
    Ok(run(heap, ByYield, centre, calls)?)
}

// What came of the calls: their replies, the trades and the lines.
fn show_ran(
    rt: &HostRuntime,
    calls: &[Call],
    ran: &Ran<ByYield, FirmCap<PrepaidCentre>>,
) -> io::Result<()> {
    println!(rt; "Calls and replies\n")?;
    for (call, reply) in calls.iter().zip(ran.replies.as_slice()) {
        show::call(rt, *call)?;
        show::reply(rt, *reply)?;
    }
    println!(rt; "\nTrades\n")?;
    for trade in ran.market.trades() {
        show::trade(rt, trade)?;
    }
    println!(rt; "\nLines\n")?;
    show::lines(rt, &ran.market, &[201, 202, 203])
}

// The market is closed however showing it ends.
fn show_day(rt: &HostRuntime) -> anyhow::Result<()> {
    let calls = day();
    let ran = run_house(rt.alloc(), &calls)?;
    let shown = show_ran(rt, &calls, &ran);
    let Ran { market, replies: _ } = ran;
    let _centre = market.close();
    Ok(shown?)
}

fn main(rt: HostRuntime) -> anyhow::Result<()> {
    show_day(&rt)
}
