// Centres to test on, and what they answer.
use centres::firm_cap::FirmCap;
use centres::firm_table::FirmTable;
use clearing::account_centre::AccountCentre;
use clearing::account_rule::AccountRule;
use clearing::cause::{Cause, Denial};
use clearing::centre::Centre;
use clearing::side::Side;
use std::alloc::Global;
use std::test::Fail;

// A centre with accounts, each with its deposit or limit.
pub fn with_accounts<R: AccountRule + Drop>(
    heap: Global,
    rule: R,
    accounts: &[(i64, u64)],
) -> Result<AccountCentre<R>, Fail> {
    let mut centre = AccountCentre::new(heap, rule)?;
    for (account, allowance) in accounts {
        centre.add(*account, *allowance)?;
    }
    Ok(centre)
}

// A firm cap with accounts in its firm 1, and the cap of that firm.
pub fn capped<C: Centre + Drop>(
    heap: Global,
    below: C,
    accounts: &[i64],
    cap: u64,
) -> Result<FirmCap<C>, Fail> {
    let mut layer = FirmCap::new(below, FirmTable::new(heap)?);
    for account in accounts {
        layer.place(*account, 1)?;
    }
    layer.set_cap(1, cap)?;
    Ok(layer)
}

pub type Answer = Result<(), Denial>;

pub const NO_LINE: Answer = Err(Denial {
    cause: Cause::NoLine,
    depth: 0,
});

pub const RANGE: Answer = Err(Denial {
    cause: Cause::OutOfRange,
    depth: 0,
});

pub const RULE: Answer = Err(Denial {
    cause: Cause::CentreRule,
    depth: 0,
});

pub const NOT_HELD: Answer = Err(Denial {
    cause: Cause::NotHeld,
    depth: 0,
});

// A cap says no.
pub fn over(depth: u8) -> Answer {
    Err(Denial::new(Cause::OverFirmCap, depth))
}

// What is asked of a centre, and its answer.
pub type Ask = (i64, Side, u64, Answer);

// Reserves lots, and gives them back at once.
fn reserve<C: Centre>(centre: &mut C, account: i64, side: Side, lots: u64) -> Answer {
    let grant = centre.reserve(account, side, lots)?;
    centre.give_back(grant)
}

// Which of the rows is the first where the question or the reservation gives another answer.
pub fn first_wrong<C: Centre>(centre: &mut C, rows: &[Ask]) -> Option<usize> {
    for (at, row) in rows.iter().enumerate() {
        let (account, side, lots, answer) = *row;
        let asked = centre.question(account, side, lots);
        if asked != answer || reserve(centre, account, side, lots) != answer {
            return Some(at);
        }
    }
    None
}
