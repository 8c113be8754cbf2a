// Lots that a centre holds for an account, as a token that can't be lost.
ghost use Rattle.std.specs.Prelude.{◌≡◌, ◌-◌, ◌≤◌};
ghost use Rattle.clearing.specs.Grant.{at_rest, grant_of};

use crate::resting::Resting;
use crate::side::Side;

/// Lots of an account and side that are held and belong to no order yet (docs/CENTRE.md, section 5). It is made by a
/// reservation, or from lots that an order had at rest. It cannot be let go before all its lots have been settled, have been
/// given back, or rest again.
pub struct Grant {
    account: i64,
    side: Side,
    lots: u64,
}

impl Grant {
    pub(crate) fn new(account: i64, side: Side, lots: u64) -> Grant
        ensures { result ≡ grant_of account side lots }
    {
        Grant {
            account,
            side,
            lots,
        }
    }

    pub fn account(&self) -> i64
        ensures { result ≡ self.now.account }
    {
        self.account
    }

    pub fn side(&self) -> Side
        ensures { result ≡ self.now.side }
    {
        self.side
    }

    pub fn lots(&self) -> u64
        ensures { result ≡ self.now.lots }
    {
        self.lots
    }

    // The grant without lots that were settled.
    pub(crate) fn less(mut self, lots: u64) -> Grant
        requires { lots ≤ self.lots }
        ensures { result ≡ grant_of self.account self.side (self.lots - lots) }
    {
        self.lots -= lots;
        self
    }

    // The end of a grant whose lots are given back: with none left, it is let go.
    pub(crate) fn spend(mut self) {
        self.lots = 0;
    }

    /// Puts the lots to rest, as part of an order.
    pub fn rest(self) -> Resting
        ensures { result ≡ at_rest self }
    {
        let Grant {
            account,
            side,
            lots,
        } = self;
        Resting::new(account, side, lots)
    }
}

impl Drop for Grant {
    fn drop(self)
        requires { self.lots ≡ 0 }
    {
        let Grant {
            account: _,
            side: _,
            lots: _,
        } = self;
    }
}
