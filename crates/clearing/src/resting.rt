// Lots that are held for an order that rests.
ghost use Rattle.clearing.specs.Grant.{CalledUp, grant_of, resting_of};
ghost use Rattle.std.specs.Prelude.{◌≡◌};

use crate::grant::Grant;
use crate::side::Side;

/// The lots of a resting order: what a grant becomes when it is put to rest (docs/CENTRE.md, section 5). Neither can be
/// copied, so each lot that is held is in one place. Nor can either be let go while it has lots: those of a resting order
/// are called up, and so become a grant again.
pub struct Resting {
    account: i64,
    side: Side,
    lots: u64,
}

impl Resting {
    pub(crate) fn new(account: i64, side: Side, lots: u64) -> Resting
        ensures { result ≡ resting_of account side lots }
    {
        Resting {
            account,
            side,
            lots,
        }
    }

    pub fn account(&self) -> i64
        ensures { result ≡ self.now.account }
    {
        self.account
    }

    pub fn side(&self) -> Side
        ensures { result ≡ self.now.side }
    {
        self.side
    }

    pub fn lots(&self) -> u64
        ensures { result ≡ self.now.lots }
    {
        self.lots
    }

    /// Calls lots up out of the order, which is lowered by them; none where it has fewer.
    pub fn call_up(&mut self, lots: u64) -> Option<Grant>
        ensures { CalledUp self.old lots self.new result }
    {
        if lots > self.lots {
            return None;
        }
        self.lots -= lots;
        Some(Grant::new(self.account, self.side, lots))
    }

    /// Calls all lots up: the end of the order.
    pub fn call_up_all(self) -> Grant
        ensures { result ≡ grant_of self.account self.side self.lots }
    {
        let Resting {
            account,
            side,
            lots,
        } = self;
        Grant::new(account, side, lots)
    }
}

impl Drop for Resting {
    fn drop(self)
        requires { self.lots ≡ 0 }
    {
        let Resting {
            account: _,
            side: _,
            lots: _,
        } = self;
    }
}
