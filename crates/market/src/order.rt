// A resting order: what waits in a queue.
ghost use Rattle.std.specs.Prelude.{◌≡◌, ◌≤◌};
ghost use Rattle.clearing.specs.Grant.{grant_of};
ghost use Rattle.market.specs.Order.{account_of, lots_of, lowered, quote_of, side_of};

use crate::rule::Quote;
use clearing::grant::Grant;
use clearing::resting::Resting;
use clearing::side::Side;

// The lots that are left, with their account and side, are held at the centre, and can be neither copied nor made here. An
// order is never let go: it ends with no lots left, or when they are all called up.
pub struct Order {
    pub(crate) number: u32,
    pub(crate) price: i64,
    pub(crate) resting: Resting,
}

impl Order {
    pub fn account(&self) -> i64
        ensures { result ≡ account_of self.now }
    {
        self.resting.account()
    }

    pub fn side(&self) -> Side
        ensures { result ≡ side_of self.now }
    {
        self.resting.side()
    }

    // The lots that are left.
    pub fn lots(&self) -> u64
        ensures { result ≡ lots_of self.now }
    {
        self.resting.lots()
    }

    pub fn number(&self) -> u32
        ensures { result ≡ self.now.number }
    {
        self.number
    }

    pub fn price(&self) -> i64
        ensures { result ≡ self.now.price }
    {
        self.price
    }

    // What a queue rule sees of it.
    pub(crate) fn quote(&self) -> Quote
        ensures { result ≡ quote_of self.now }
    {
        Quote {
            side: self.side(),
            price: self.price,
            number: self.number,
        }
    }

    // Calls lots up, which leave the order.
    pub(crate) fn call_up(&mut self, lots: u64) -> Grant
        requires { lots ≤ lots_of self.old }
        ensures grant { result ≡ grant_of (account_of self.old) (side_of self.old) lots }
        ensures lowered { self.new ≡ lowered self.old lots }
    {
        self.resting.call_up(lots).unwrap()
    }

    // Calls all lots up, with which the order ends.
    pub(crate) fn call_up_all(self) -> Grant
        ensures { result ≡ grant_of (account_of self) (side_of self) (lots_of self) }
    {
        let Order {
            number: _,
            price: _,
            resting,
        } = self;
        resting.call_up_all()
    }

    // Ends an order that has no lots left.
    pub(crate) fn end(self)
        requires { lots_of self ≡ 0 }
    {
        let Order {
            number: _,
            price: _,
            resting: _,
        } = self;
    }
}
