// A trade, as the register keeps it.
// One of the two orders that traded.
#[derive(Clone, Copy, PartialEq, Eq, Debug)]
pub struct Party {
    pub number: u32,
    pub account: i64,
}

#[derive(Clone, Copy, PartialEq, Eq, Debug)]
pub struct Trade {
    pub buy: Party,
    pub sell: Party,
    // The resting order's.
    pub price: i64,
    pub lots: u64,
}
