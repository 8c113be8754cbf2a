// Cause 2: lots out of range, and a side that comes to 999,999,999 lots. No market asks so much of a centre.
use crate::scene::{Answer, Ask, NO_LINE, RANGE, RULE, capped, first_wrong, over, with_accounts};
use centres::position::Position;
use centres::prepaid::Prepaid;
use clearing::cause::{Cause, Denial};
use clearing::centre::{Centre, Unsettled};
use clearing::side::Side::{self, Buy, Sell};
use std::process::Abort;
use std::test::Fail;

const TOP: u64 = 999_999_999;

// Account 1 has room for more than 1,000,000 lots a side, account 2 for none, and account 3 has no line. The account is
// looked at before the lots, and the lots before the rule.
const IN_RANGE: [Ask; 13] = [
    (1, Buy, 0, RANGE),
    (1, Sell, 0, RANGE),
    (1, Buy, 1, Ok(())),
    (1, Sell, 1_000_000, Ok(())),
    (1, Buy, 1_000_001, RANGE),
    (1, Sell, 1_000_001, RANGE),
    (1, Buy, u64::MAX, RANGE),
    (1, Sell, u64::MAX, RANGE),
    (2, Buy, 0, RANGE),
    (2, Sell, 1_000_001, RANGE),
    (2, Buy, 1, RULE),
    (3, Buy, 0, NO_LINE),
    (3, Sell, 1_000_001, NO_LINE),
];

fn in_range<C: Centre + Drop>(rt: &impl Abort, mut centre: C) {
    assert_eq!(rt; first_wrong(&mut centre, &IN_RANGE), None);
}

#[test]
fn account_then_lots_then_rule(rt: HostRuntime) -> Result<(), Fail> {
    let heap = rt.alloc();
    let accounts = [(1, TOP), (2, 0)];
    in_range(&rt, with_accounts(heap, Prepaid::new(1)?, &accounts)?);
    in_range(&rt, with_accounts(heap, Position, &accounts)?);
    let centre = with_accounts(heap, Position, &accounts)?;
    in_range(&rt, capped(heap, centre, &[1, 2], TOP)?);
    Ok(())
}

// Account 1 reserves the most lots of a reservation, and settles all.
fn trade<C: Centre>(centre: &mut C, side: Side) -> Answer {
    let grant = centre.reserve(1, side, 1_000_000)?;
    match centre.settle(grant, 1_000_000) {
        Ok(rest) => centre.give_back(rest),
        Err(Unsettled { grant, denial }) => {
            let _also = centre.give_back(grant);
            Err(denial)
        }
    }
}

// Account 1 settles 999,000,000 lots of a side and holds the last 999,999: the first row that is wrong then.
fn first_wrong_at_the_top<C: Centre>(
    centre: &mut C,
    side: Side,
    rows: &[Ask],
) -> Result<Option<usize>, Denial> {
    for _ in 0..999 {
        trade(centre, side)?;
    }
    let grant = centre.reserve(1, side, 999_999)?;
    let at = first_wrong(centre, rows);
    centre.give_back(grant)?;
    Ok(at)
}

fn ends<C: Centre + Drop>(rt: &impl Abort, mut centre: C, side: Side, rows: &[Ask]) {
    assert_eq!(rt; first_wrong_at_the_top(&mut centre, side, rows), Ok(None));
}

// By position and under a cap, a side, the limit and the cap all end at 999,999,999; account 2 is in the firm too.
#[test]
fn a_side_comes_to_999_999_999_and_no_more(rt: HostRuntime) -> Result<(), Fail> {
    let heap = rt.alloc();
    let centre = with_accounts(heap, Position, &[(1, TOP)])?;
    let rows = [(1, Sell, 1, RANGE), (1, Buy, 1_000_000, Ok(()))];
    ends(&rt, centre, Sell, &rows);
    let centre = with_accounts(heap, Position, &[(1, TOP), (2, TOP)])?;
    let rows = [(1, Buy, 1, RANGE), (2, Sell, 1, over(1))];
    ends(&rt, capped(heap, centre, &[1, 2], TOP)?, Buy, &rows);
    Ok(())
}

fn margin(lots: u64) -> Result<u64, Denial> {
    Ok(Prepaid::new(lots)?.margin())
}

// The largest margin and deposit: 1,000,000,000 lots, one more than a side takes.
#[test]
fn the_largest_deposit_at_the_largest_margin(rt: HostRuntime) -> Result<(), Fail> {
    let bad = Err(Denial::new(Cause::BadSetting, 0));
    assert!(rt; margin(0) == bad && margin(1_000_001) == bad && margin(u64::MAX) == bad);
    assert!(rt; margin(1) == Ok(1) && margin(1_000_000) == Ok(1_000_000));
    let rows = [(1, Buy, 1, RANGE), (1, Sell, 2, RULE), (1, Sell, 1, Ok(()))];
    let centre = with_accounts(
        rt.alloc(),
        Prepaid::new(1_000_000)?,
        &[(1, 1_000_000_000_000_000)],
    )?;
    assert!(rt; centre.allowance(1) == Some(1_000_000_000_000_000));
    assert!(rt; centre.allowance(2).is_none());
    ends(&rt, centre, Buy, &rows);
    Ok(())
}
