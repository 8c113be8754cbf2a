// A centre over a rule that judges each account by its own line: prepaid, or by position.
ghost use Rattle.std.specs.Prelude.{◌≡◌, ℕ, [], IfOk, Ok};
ghost use Rattle.clearing.specs.AccountCentre.{AddedTo, Judged, PartSettled, SameAllowances, account_own};
ghost use Rattle.clearing.specs.Grant.{grant_of};
ghost use Rattle.clearing.specs.Ledger.{Adjusted, account_of, allowances_of, lines_of};
ghost use Rattle.clearing.specs.Line.{hold};
ghost use Rattle.clearing.specs.Verdicts.{sound_lines};
ghost use Rattle.std.proofs.Common.{rules};
ghost use Rattle.std.specs.List.{slice_get};
ghost use Rattle.std.specs.Option.{option_map};

use crate::account_rule::AccountRule;
use crate::cause::{Cause, Denial};
use crate::centre::{Centre, Unsettled};
use crate::grant::Grant;
use crate::ledger::Ledger;
use crate::line::Line;
use crate::side::Side;
use std::alloc::{AllocError, Global};

/// The account of a row is judged by the rule R, at the allowance that the house set for it.
#[derive(Drop)]
pub struct AccountCentre<R> {
    rule: R,
    ledger: Ledger,
}

impl<R: AccountRule + Drop> AccountCentre<R> {
    /// A centre with no accounts, and room for 32. This is the last time that it asks for memory.
    pub fn new(heap: Global, rule: R) -> Result<AccountCentre<R>, AllocError>
        ensures { IfOk result (λ s. (s.rule ≡ rule) × (s.ledger.rows ≡ [])) }
    {
        let ledger = Ledger::new(heap)?;
        Ok(AccountCentre { rule, ledger })
    }

    /// Adds an account with its allowance: its deposit, or its limit.
    pub fn add(&mut self, account: i64, allowance: u64) -> Result<(), Denial>
        ensures { AddedTo R.AccountRule.top self.old account allowance self.new result }
    {
        if allowance > R::top() {
            return Err(Denial::new(Cause::BadSetting, 0));
        }
        self.ledger.add(account, allowance)
    }

    /// The deposit or the limit of an account, where it has a line.
    pub fn allowance(&self, account: i64) -> Option<u64>
        ensures { result ≡ allowances_of self.now.ledger.rows account }
    {
        self.ledger.allowance(account)
    }

    /// The account that stands at a place, the smallest at 0: places go up by account, and none is left out.
    pub fn account_at(&self, at: usize) -> Option<i64>
        ensures { result ≡ option_map account_of (slice_get self.now.ledger.rows at) }
    {
        self.ledger.account_at(at)
    }

    /// The rule, so that a house can show its settings.
    pub fn rule(&self) -> &R
        ensures { result.now ≡ self.now.rule }
    {
        &self.rule
    }

    // Where the account's row is, if the lots would be reserved.
    fn judge(&self, account: i64, side: Side, lots: u64) -> Result<usize, Denial>
        ensures { Judged (R.AccountRule.admits self.now.rule) self.now.ledger.rows account side lots result }
    {
        let Some(at) = self.ledger.place(account) else {
            return Err(Denial::new(Cause::NoLine, 0));
        };
        let row = self.ledger.row(at);
        if !row.line.has_room(side, lots) {
            return Err(Denial::new(Cause::OutOfRange, 0));
        }
        if !self.rule.admits(row.allowance, &row.line, side, lots) {
            return Err(Denial::new(Cause::CentreRule, 0));
        }
        Ok(at)
    }

    // Holds lots that were judged, and makes the grant for them.
    fn hold(&mut self, at: usize, account: i64, side: Side, lots: u64) -> Grant
        requires { Judged (R.AccountRule.admits self.old.rule) self.old.ledger.rows account side lots (Ok at) }
        ensures grant { result ≡ grant_of account side lots }
        ensures held { Adjusted self.old.ledger.rows account (hold side lots) self.new.ledger.rows }
        ensures rule { self.new.rule ≡ self.old.rule }
    {
        self.ledger.hold(at, side, lots);
        Grant::new(account, side, lots)
    }

    // Settles lots of a grant on its account's line; by cause 5 nothing changes.
    fn settle_part(&mut self, grant: &Grant, lots: u64) -> Result<(), Denial>
        ensures { PartSettled self.old grant.now lots self.new result }
    {
        if lots > grant.lots() {
            return Err(Denial::new(Cause::NotHeld, 0));
        }
        self.ledger.settle(grant.account(), grant.side(), lots)
    }
}

impl<R: AccountRule + Drop> Centre for AccountCentre<R> {
    ghost lines = { λ s. lines_of s.ledger.rows };

    ghost own = { λ s. account_own (R.AccountRule.admits s.rule) (allowances_of s.ledger.rows) };

    ghost depth = { λ _. 0 };

    // The rule with its margin, and each account with its deposit or limit.
    ghost same_settings = { SameAllowances };

    ghost sound = { λ s a. sound_lines s.ledger.rows a };

    ghost denies = { Prim.search rules };

    ghost shallow = { Prim.search rules };

    ghost same_own = { Prim.search rules };

    ghost same_depth = { Prim.search rules };

    ghost same_self = { Prim.search rules };

    ghost same_on = { Prim.search rules };

    fn depth(&self) -> u8 {
        0
    }

    fn question(&self, account: i64, side: Side, lots: u64) -> Result<(), Denial> {
        self.judge(account, side, lots).map(|_| ())
    }

    fn reserve(&mut self, account: i64, side: Side, lots: u64) -> Result<Grant, Denial> {
        let at = self.judge(account, side, lots)?;
        Ok(self.hold(at, account, side, lots))
    }

    fn settle(&mut self, grant: Grant, lots: u64) -> Result<Grant, Unsettled> {
        match self.settle_part(&grant, lots) {
            Ok(()) => Ok(grant.less(lots)),
            Err(denial) => Err(Unsettled { grant, denial }),
        }
    }

    fn give_back(&mut self, grant: Grant) -> Result<(), Denial> {
        let released = self
            .ledger
            .release(grant.account(), grant.side(), grant.lots());
        grant.spend();
        released
    }

    fn line(&self, account: i64) -> Option<Line> {
        self.ledger.line(account)
    }
}
