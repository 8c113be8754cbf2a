// One row of a ledger.
ghost use Rattle.std.specs.Prelude.{◌≡◌, ◌≤◌, true};
ghost use Rattle.clearing.specs.Line.{hold, in_range, on, release, settle, sound_line};

use crate::by_account::OfAccount;
use crate::line::Line;
use crate::side::Side;

/// An account with its allowance, the deposit or the limit that the house set for it, and its line, where each side's sum
/// is within its maximum.
#[derive(Clone, Copy)]
pub struct AccountLine {
    pub account: i64,
    pub allowance: u64,
    pub line: Line,
    ghost sound: { sound_line line ≡ true },
}

impl OfAccount for AccountLine {
    ghost use Rattle.clearing.specs.Ledger.{account_of};

    ghost account = { account_of };

    fn account(&self) -> i64 {
        self.account
    }
}

impl AccountLine {
    ghost use Rattle.clearing.specs.Ledger.{Relined, opened};

    // The row of an account with nothing held or settled.
    pub(crate) fn new(account: i64, allowance: u64) -> AccountLine
        ensures { result ≡ opened account allowance }
    {
        let line = Line::new();
        AccountLine {
            account,
            allowance,
            line,
        }
    }

    // Holds lots more.
    pub(crate) fn hold(&mut self, side: Side, lots: u64)
        requires { in_range side lots self.old.line ≡ true }
        ensures { Relined self.old (hold side lots) self.new }
    {
        self.line = self.line.hold(side, lots);
    }

    // Settles lots that are held.
    pub(crate) fn settle(&mut self, side: Side, lots: u64)
        requires { lots ≤ (on side self.old.line).held }
        ensures { Relined self.old (settle side lots) self.new }
    {
        self.line = self.line.settle(side, lots);
    }

    // Lets lots that are held go.
    pub(crate) fn release(&mut self, side: Side, lots: u64)
        requires { lots ≤ (on side self.old.line).held }
        ensures { Relined self.old (release side lots) self.new }
    {
        self.line = self.line.release(side, lots);
    }
}
