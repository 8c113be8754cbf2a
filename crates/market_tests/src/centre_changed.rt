// Centres that were changed by other means than the calls of a market: one that does not hold what rests in the market
// over it, and one that has nearly all the lots that a side can come to.
use crate::steps::Ask::{Buy, BuyAtMarket, Open, Reduce, Resume, Sell, Suspend, Withdraw};
use crate::steps::{NONE, Step, run};
use centres::position::Position;
use centres::prepaid::Prepaid;
use clearing::account_centre::AccountCentre;
use clearing::account_rule::AccountRule;
use clearing::cause::Denial;
use clearing::centre::{Centre, Unsettled};
use clearing::side::Side;
use dealing::call::Rest::{InFull, Queue, TakeOff};
use market::market::Market;
use market::rate::ByRate;
use market::rule::QueueRule;
use market::yields::ByYield;
use std::alloc::{AllocError, Global};
use std::process::Abort;
use std::test::Fail;

const ACCOUNTS: [i64; 3] = [101, 102, 103];

const START: [Step; 5] = [
    (Open, 60, NONE),
    (Sell(101, Queue, 7000, 10), 51, [1, 0, 10, 0]),
    (Sell(102, Queue, 7001, 10), 51, [2, 0, 10, 0]),
    (Sell(101, Queue, 7002, 5), 51, [3, 0, 5, 0]),
    (Buy(103, Queue, 6990, 8), 51, [4, 0, 8, 0]),
];

const NO_LINES: [Step; 5] = [
    (Withdraw(101, 1), 13, NONE),
    (Reduce(103, 4, 1), 13, NONE),
    (Buy(103, Queue, 7000, 1), 13, NONE),
    (Buy(103, Queue, 6980, 1), 14, [1, 0, 0, 0]),
    (Withdraw(101, 4), 11, NONE),
];

const NOTHING_HELD: [Step; 24] = [
    (Buy(103, Queue, 7000, 10), 13, NONE),
    (Buy(103, InFull, 7001, 20), 13, NONE),
    (BuyAtMarket(103, 1), 13, NONE),
    (Sell(102, TakeOff, 6990, 1), 13, NONE),
    // Before the centre is asked, and after the walk is judged.
    (Buy(999, Queue, 7000, 1), 13, NONE),
    (Buy(103, TakeOff, 7000, 51), 13, NONE),
    (Buy(103, InFull, 7002, 26), 7, NONE),
    (Buy(101, Queue, 7000, 1), 6, NONE),
    (Withdraw(101, 1), 13, NONE),
    (Withdraw(103, 4), 13, NONE),
    (Reduce(101, 1, 1), 13, NONE),
    (Reduce(103, 4, 7), 13, NONE),
    (Reduce(101, 1, 10), 12, NONE),
    (Reduce(102, 1, 1), 11, NONE),
    (Withdraw(101, 5), 10, NONE),
    (Suspend, 58, NONE),
    (Withdraw(101, 1), 13, NONE),
    (Reduce(103, 4, 1), 13, NONE),
    (Resume, 59, NONE),
    // What trades with none of those orders is judged by the centre alone.
    (Buy(102, Queue, 6980, 51), 14, [3, 0, 0, 0]),
    (Buy(102, Queue, 6980, 50), 51, [5, 0, 50, 0]),
    (Sell(103, TakeOff, 6991, 1), 53, [6, 0, 0, 1]),
    (Reduce(102, 5, 1), 57, [5, 0, 49, 1]),
    (Withdraw(102, 5), 56, [5, 0, 0, 49]),
];

// The line of 101 covers either of its orders and not both, and the other lines cover theirs.
const ONE_SHORT: [Step; 6] = [
    (Withdraw(101, 3), 13, NONE),
    (Reduce(101, 1, 1), 13, NONE),
    (Buy(103, TakeOff, 7000, 1), 13, NONE),
    (Sell(101, TakeOff, 6990, 8), 50, [5, 8, 0, 0]),
    (Withdraw(102, 2), 56, [2, 0, 0, 10]),
    (Withdraw(101, 1), 13, NONE),
];

// The line of 102, whose order comes second, is one lot short.
const SECOND_SHORT: [Step; 4] = [
    (Buy(103, TakeOff, 7001, 11), 13, NONE),
    (Withdraw(102, 2), 13, NONE),
    (Buy(103, TakeOff, 7001, 10), 50, [5, 10, 0, 0]),
    (Withdraw(101, 3), 56, [3, 0, 0, 5]),
];

#[derive(Clone, Copy)]
struct Case {
    // The accounts of a second centre, which takes the place of the first and holds nothing.
    accounts: &'static [i64],
    // Or the market stays over the first, and that holds one lot less for this account.
    short: Option<i64>,
    steps: &'static [Step],
    // An account, and its line when the market is closed: buys held and settled, and sells held and settled.
    account: i64,
    line: Option<[u64; 4]>,
}

// At the close an order gives nothing back where its line holds less: of 101, order 1 does with 10 of 14 lots, and order 3
// with 5 lots does not.
const CASES: [Case; 4] = [
    Case {
        accounts: &[],
        short: None,
        steps: &NO_LINES,
        account: 101,
        line: None,
    },
    Case {
        accounts: &ACCOUNTS,
        short: None,
        steps: &NOTHING_HELD,
        account: 102,
        line: Some([0, 0, 0, 0]),
    },
    Case {
        accounts: &ACCOUNTS,
        short: Some(101),
        steps: &ONE_SHORT,
        account: 101,
        line: Some([0, 0, 4, 8]),
    },
    Case {
        accounts: &ACCOUNTS,
        short: Some(102),
        steps: &SECOND_SHORT,
        account: 101,
        line: Some([0, 0, 0, 10]),
    },
];

// Each account with the same deposit or limit.
fn with_accounts<A: AccountRule + Drop>(
    heap: Global,
    rule: A,
    accounts: &[i64],
    allowance: u64,
) -> Result<AccountCentre<A>, Fail> {
    let mut centre = AccountCentre::new(heap, rule)?;
    for account in accounts {
        centre.add(*account, allowance)?;
    }
    Ok(centre)
}

// The centre that the market goes on over. A grant of the second is spent at the first, where a lot is then held no more.
fn changed<C: Centre + Drop>(
    rt: &impl Abort,
    mut first: C,
    mut second: C,
    short: Option<i64>,
    side: Side,
) -> C {
    let Some(account) = short else {
        return second;
    };
    let grant = second.reserve(account, side, 1).expect(rt, "room");
    assert!(rt; first.give_back(grant).is_ok());
    first
}

fn counts<C: Centre>(centre: &C, account: i64, buys: Side) -> Option<[u64; 4]> {
    let line = centre.line(account)?;
    let bought = line.on(buys);
    let sold = line.on(buys.other());
    Some([bought.held, bought.settled, sold.held, sold.settled])
}

// A market ends over any centre, one that may not be let go too.
fn ended<R: QueueRule + Drop, C: Centre>(market: Market<R, C>) -> C {
    market.close()
}

// The orders come to rest over the first centre, and the steps are taken over the changed one.
fn moved<R: QueueRule + Drop, C: Centre + Drop>(
    rt: &impl Abort,
    heap: Global,
    rule: R,
    centres: (C, C),
    buys: Side,
    case: Case,
) -> Result<(), AllocError> {
    let (first, second) = centres;
    let mut market = Market::new(heap, rule, first)?;
    run(rt, &mut market, buys, &START);
    let (book, first) = market.into_parts();
    let centre = changed(rt, first, second, case.short, buys.other());
    let mut market = Market::from_parts(book, centre);
    run(rt, &mut market, buys, case.steps);
    let centre = ended(market);
    assert_eq!(rt; counts(&centre, case.account, buys), case.line);
    Ok(())
}

// Each account has an allowance of 50 lots.
fn out_of_step<R: QueueRule + Copy, A: AccountRule + Copy>(
    rt: &impl Abort,
    heap: Global,
    rules: (R, A),
    allowance: u64,
    buys: Side,
) -> Result<(), Fail> {
    let (rule, account_rule) = rules;
    for case in CASES {
        let first = with_accounts(heap, account_rule, &ACCOUNTS, allowance)?;
        let second = with_accounts(heap, account_rule, case.accounts, allowance)?;
        moved(rt, heap, rule, (first, second), buys, case)?;
    }
    Ok(())
}

#[test]
fn orders_out_of_step(rt: HostRuntime) -> Result<(), Fail> {
    let heap = rt.alloc();
    out_of_step(&rt, heap, (ByRate, Position), 50, Side::Buy)?;
    out_of_step(
        &rt,
        heap,
        (ByYield, Prepaid::new(200)?),
        50 * 200,
        Side::Sell,
    )
}

// Account 101 has settled 999,000,000 lots of its buys, and a side comes to 999,999,999.
const NEARLY_ALL: [Step; 5] = [
    (Open, 60, NONE),
    (Buy(101, Queue, 7000, 1_000_000), 14, [2, 0, 0, 0]),
    (Buy(101, Queue, 7000, 999_999), 51, [1, 0, 999_999, 0]),
    (Buy(101, TakeOff, 7000, 1), 14, [2, 0, 0, 0]),
    (Sell(101, Queue, 7001, 1_000_000), 51, [2, 0, 1_000_000, 0]),
];

// The account settles the most lots of a reservation.
fn trade<C: Centre>(centre: &mut C, side: Side) -> Result<(), Denial> {
    let grant = centre.reserve(101, side, 1_000_000)?;
    match centre.settle(grant, 1_000_000) {
        Ok(rest) => centre.give_back(rest),
        Err(Unsettled { grant, denial }) => {
            let _also = centre.give_back(grant);
            Err(denial)
        }
    }
}

fn nearly_all<R: QueueRule + Drop, C: Centre + Drop>(
    rt: &impl Abort,
    heap: Global,
    rule: R,
    mut centre: C,
    buys: Side,
) -> Result<(), Fail> {
    for _ in 0..999 {
        trade(&mut centre, buys)?;
    }
    let mut market = Market::new(heap, rule, centre)?;
    run(rt, &mut market, buys, &NEARLY_ALL);
    let _centre = market.close();
    Ok(())
}

#[test]
fn a_side_comes_to_999_999_999_lots(rt: HostRuntime) -> Result<(), Fail> {
    let heap = rt.alloc();
    let centre = with_accounts(heap, Position, &[101], 999_999_999)?;
    nearly_all(&rt, heap, ByRate, centre, Side::Buy)?;
    let centre = with_accounts(heap, Prepaid::new(200)?, &[101], 200 * 2_000_000_000)?;
    nearly_all(&rt, heap, ByYield, centre, Side::Sell)
}
