// What the text of a house's settings says, as plain values: nothing here is within its range yet.
use crate::error::Expected;
use crate::rule::HouseRule;

/// A number under a number, as it is written: an account's limit, deposit or firm, or a firm's cap.
#[derive(Clone, Copy, PartialEq, Eq, Debug)]
pub struct Entry {
    /// The account, or the firm.
    pub number: i64,
    /// What is set for it.
    pub value: i64,
}

/// The rule of a house's centre.
#[derive(Clone, Copy, PartialEq, Eq, Debug)]
pub enum Kind {
    /// By position.
    Position,
    /// Prepaid, with the margin for each lot.
    Prepaid(i64),
}

impl Kind {
    // What is set for each account.
    pub(crate) fn allowance(self) -> Expected {
        match self {
            Kind::Position => Expected::Limit,
            Kind::Prepaid(_) => Expected::Deposit,
        }
    }
}

/// A firm cap: the firm of each member, and the cap of each firm.
#[derive(Drop)]
pub struct Layer {
    pub members: Vec<Entry>,
    pub caps: Vec<Entry>,
}

/// What a whole text says.
#[derive(Drop)]
pub struct Settings {
    pub rule: HouseRule,
    pub kind: Kind,
    /// The limit or the deposit of each account.
    pub accounts: Vec<Entry>,
    /// The firm caps, the lowest first.
    pub layers: Vec<Layer>,
}
