// The lines of a centre's accounts, kept in one row by account, each with the number that the house set for it.
ghost use Rattle.std.specs.Prelude.{◌≡◌, ◌<◌, true, false, [], length, get_or, ℤ, IfOk, MatchResult, Some, slice_index_or};
ghost use Rattle.clearing.specs.Centre.{holds};
ghost use Rattle.clearing.specs.Cause.{denied};
ghost use Rattle.clearing.specs.Ledger.{Added, Adjusted, HeldMoved, Holder, account_before, account_of, allowances_of, can_add, lines_of};
ghost use Rattle.clearing.specs.Line.{hold, in_range, release, settle};
ghost use Rattle.clearing.specs.declared.account_line.AccountLine.{AccountLine};
ghost use Rattle.clearing.specs.declared.cause.Cause.TheVariants.{BadSetting};
ghost use Rattle.ordered.specs.Row.{Found, at_key, in_order};
ghost use Rattle.std.specs.List.{slice_get};
ghost use Rattle.std.specs.Option.{option_map};

use crate::account::is_account;
use crate::account_line::AccountLine;
use crate::by_account::ByAccount;
use crate::cause::{Cause, Denial};
use crate::line::Line;
use crate::side::Side;
use ordered::row::Row;
use ordered::{find, lookup};
use std::alloc::{AllocError, Global};

/// At most 32 rows, by account.
#[derive(Drop)]
pub struct Ledger {
    rows: Row<AccountLine, 32>,
    ghost ordered: { in_order account_before rows ≡ true },
}

impl Ledger {
    pub(crate) fn new(heap: Global) -> Result<Ledger, AllocError>
        ensures { IfOk result (λ l. l.rows ≡ []) }
    {
        let rows = Row::new(heap)?;
        Ok(Ledger { rows })
    }

    // Where the account's row is.
    pub(crate) fn place(&self, account: i64) -> Option<usize>
        ensures { Found account_of self.now.rows account result }
    {
        find(&ByAccount, self.rows.as_slice(), account)
    }

    // The row at a place.
    pub(crate) fn row(&self, at: usize) -> AccountLine
        requires { at < length self.now.rows }
        ensures { result ≡ slice_index_or self.now.rows at result }
    {
        self.rows.as_slice()[at]
    }

    // The account of the row at a place, where there is one.
    pub(crate) fn account_at(&self, at: usize) -> Option<i64>
        ensures { result ≡ option_map account_of (slice_get self.now.rows at) }
    {
        self.rows.as_slice().get(at).map(|row| row.account)
    }

    // The row of an account, where it has one.
    fn lookup(&self, account: i64) -> Option<AccountLine>
        ensures { result ≡ at_key account_of self.now.rows account }
    {
        lookup(&ByAccount, self.rows.as_slice(), account)
    }

    // The line of an account, where it has one.
    pub(crate) fn line(&self, account: i64) -> Option<Line>
        ensures { result ≡ lines_of self.now.rows account }
    {
        self.lookup(account).map(|row| row.line)
    }

    // The allowance of an account, where it has a row.
    pub(crate) fn allowance(&self, account: i64) -> Option<u64>
        ensures { result ≡ allowances_of self.now.rows account }
    {
        self.lookup(account).map(|row| row.allowance)
    }

    // Holds lots more for the account of a row. No other line moves, and no allowance.
    pub(crate) fn hold(&mut self, at: usize, side: Side, lots: u64)
        requires within { at < length self.old.rows }
        requires room { (d : AccountLine) → in_range side lots (get_or self.old.rows at d).line ≡ true }
        ensures held { (a : ℤ) → Found account_of self.old.rows a (Some at) → Adjusted self.old.rows a (hold side lots) self.new.rows }
    {
        self.rows.item_mut(at).unwrap().hold(side, lots);
    }

    // Where the row of an account is, if it holds the lots; else the cause is 5.
    fn holder(&self, account: i64, side: Side, lots: u64) -> Result<usize, Denial>
        ensures { Holder self.now.rows account side lots result }
    {
        let not_held = Denial::new(Cause::NotHeld, 0);
        let Some(at) = self.place(account) else {
            return Err(not_held);
        };
        if lots > self.row(at).line.on(side).held {
            return Err(not_held);
        }
        Ok(at)
    }

    // Settles lots that the account holds; by cause 5 nothing changes.
    pub(crate) fn settle(&mut self, account: i64, side: Side, lots: u64) -> Result<(), Denial>
        ensures { HeldMoved self.old.rows account side lots (settle side lots) self.new.rows result }
    {
        let at = self.holder(account, side, lots)?;
        self.rows.item_mut(at).unwrap().settle(side, lots);
        Ok(())
    }

    // Lets lots that the account holds go; by cause 5 nothing changes.
    pub(crate) fn release(&mut self, account: i64, side: Side, lots: u64) -> Result<(), Denial>
        ensures { HeldMoved self.old.rows account side lots (release side lots) self.new.rows result }
    {
        let at = self.holder(account, side, lots)?;
        self.rows.item_mut(at).unwrap().release(side, lots);
        Ok(())
    }

    // Whether an account can be added.
    fn can_add(&self, account: i64) -> bool
        ensures { result ≡ can_add self.now.rows account }
    {
        is_account(account) && !self.rows.is_full() && self.line(account).is_none()
    }

    // Adds an account from 1 to 999,999 that has no row yet, with nothing held or settled; by cause 6 nothing changes.
    pub(crate) fn add(&mut self, account: i64, allowance: u64) -> Result<(), Denial>
        ensures { MatchResult result (λ _. (can_add self.old.rows account ≡ true) × Added self.old.rows account allowance self.new.rows) (λ d. (can_add self.old.rows account ≡ false) × (d ≡ denied BadSetting 0) × (self.new ≡ self.old)) }
    {
        if !self.can_add(account) {
            return Err(Denial::new(Cause::BadSetting, 0));
        }
        let row = AccountLine::new(account, allowance);
        self.rows.add(&ByAccount, row).unwrap();
        Ok(())
    }
}
