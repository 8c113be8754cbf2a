// The calls of a day.
use clearing::side::Side;
use dealing::call::{Call, Entry, Kind, Rest};

// An entry at a yield, whose rest joins its queue.
fn limited(account: i64, side: Side, price: i64, lots: i64) -> Call {
    Call::Enter(Entry {
        account,
        side,
        kind: Kind::Limited,
        rest: Rest::Queue,
        price,
        lots,
    })
}

// An entry at market, whose rest is taken off.
fn at_market(account: i64, side: Side, lots: i64) -> Call {
    Call::Enter(Entry {
        account,
        side,
        kind: Kind::Market,
        rest: Rest::TakeOff,
        price: 0,
        lots,
    })
}

/// The firm cap refuses the fourth call and the prepaid rule the fifth; the eighth stops at an order of its own account.
pub fn day() -> [Call; 11] {
    [
        Call::Open {
            low: 250,
            high: 400,
            deviation: 10,
        },
        limited(201, Side::Sell, 310, 30),
        limited(202, Side::Sell, 305, 20),
        limited(201, Side::Sell, 320, 11),
        limited(202, Side::Sell, 320, 11),
        limited(203, Side::Buy, 305, 40),
        limited(203, Side::Sell, 308, 5),
        limited(202, Side::Buy, 304, 8),
        Call::Withdraw {
            account: 202,
            number: 2,
        },
        limited(203, Side::Buy, 300, 20),
        at_market(201, Side::Sell, 15),
    ]
}
