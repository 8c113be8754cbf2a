//! What a house does to its centre between calls, and the accounts that it has.
ghost use Rattle.scenario.specs.Carried.{Change};
ghost use Rattle.std.specs.List.{slice_get};
ghost use Rattle.std.specs.Prelude.{◌≡◌, List, ℤ};

use clearing::cause::Denial;
use clearing::centre::Centre;
use house::centre;
use house::centre::HouseCentre;

/// A centre that a house changes between calls.
pub trait HouseFloor: Centre {
    /// What adding an account with its limit or deposit does.
    ghost account_added: { Change Self };

    /// What setting the cap of a firm in the top layer does.
    ghost cap_set: { Change Self };

    /// The accounts, in ascending order.
    ghost accounts: { Self → List ℤ };

    fn add_account(&mut self, account: i64, setting: i64) -> Result<(), Denial>
        ensures { account_added self.old account setting self.new result };

    fn set_cap(&mut self, firm: i64, cap: i64) -> Result<(), Denial>
        ensures { cap_set self.old firm cap self.new result };

    /// The account at a place, the smallest at 0.
    fn account_at(&self, at: usize) -> Option<i64>
        ensures { result ≡ slice_get (accounts self.now) at };
}

impl HouseFloor for HouseCentre {
    ghost use Rattle.clearing.specs.Ledger.{account_of};
    ghost use Rattle.house.specs.House.{AccountAdded, CapSetTo, rows_of};
    ghost use Rattle.std.specs.Prelude.{map};

    ghost account_added = { AccountAdded };

    ghost cap_set = { CapSetTo };

    ghost accounts = { λ c. map account_of (rows_of c.below) };

    fn add_account(&mut self, account: i64, setting: i64) -> Result<(), Denial> {
        centre::add_account(self, account, setting)
    }

    fn set_cap(&mut self, firm: i64, cap: i64) -> Result<(), Denial> {
        centre::set_cap(self, firm, cap)
    }

    fn account_at(&self, at: usize) -> Option<i64> {
        centre::account_at(self, at)
    }
}
