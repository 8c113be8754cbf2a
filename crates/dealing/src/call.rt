// The six calls of a market, with the numbers as they were given: a call carries any number, and the market judges it.
use clearing::side::Side;

/// How an entry is priced, which decides what is eligible for it (docs/FLOOR.md, section 6).
#[derive(Clone, Copy, PartialEq, Eq, Debug)]
pub enum Kind {
    /// At its own price or better.
    Limited,
    /// At the prices that stand in the market.
    Market,
}

/// What becomes of the lots that find no counterpart: the entry's type (docs/FLOOR.md, section 7).
#[derive(Clone, Copy, PartialEq, Eq, Debug)]
pub enum Rest {
    /// They join the queue.
    Queue,
    /// They are taken off.
    TakeOff,
    /// There may be none: the entry fills whole or is refused.
    InFull,
}

/// An order as it comes in. Its numbers are of any value: docs/FLOOR.md, section 5, says what a
/// market accepts, and section 11 how it refuses the others.
#[derive(Clone, Copy, PartialEq, Eq, Debug)]
pub struct Entry {
    /// The account that enters; the centre says whether it has a line.
    pub account: i64,
    pub side: Side,
    pub kind: Kind,
    pub rest: Rest,
    /// In price steps: within the market's band where the entry is limited, else 0.
    pub price: i64,
    /// Accepted from 1 to 1,000,000.
    pub lots: i64,
}

/// What a market is asked to do. docs/FLOOR.md, section 11, lists what each call can be refused for,
/// and section 10 the periods that allow it.
#[derive(Clone, Copy, PartialEq, Eq, Debug)]
pub enum Call {
    /// Opens the market, in price steps: limited prices go from low to high, both from -999,999,999
    /// to 999,999,999, and market entries as far as the deviation, 0 to 999,999,999.
    Open {
        low: i64,
        high: i64,
        deviation: i64,
    },
    /// Enters an order.
    Enter(Entry),
    /// Takes all lots left of an account's resting order off (docs/FLOOR.md, section 9).
    Withdraw {
        account: i64,
        number: i64,
    },
    /// Takes so many lots of an account's resting order off: at least 1, and at least 1 is left.
    Reduce {
        account: i64,
        number: i64,
        lots: i64,
    },
    /// Suspends a market that trades.
    Suspend,
    /// Resumes a market that is suspended.
    Resume,
}
