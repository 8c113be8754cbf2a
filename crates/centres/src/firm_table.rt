// Which accounts belong to which firm, and how many lots each firm may come to.
ghost use Rattle.std.specs.Prelude.{◌≡◌, ◌-◌, ◌≤◌, true, false, ◌&&◌, [], length, replicate, IfOk, MatchResult, slice_set};
ghost use Rattle.centres.specs.Firms.{Placed, can_place, cap_fits, cap_of, firm_fits, firm_of, member_account, member_before};
ghost use Rattle.clearing.specs.declared.cause.Cause.TheVariants.{BadSetting};
ghost use Rattle.ordered.specs.Row.{at_key, in_order};

use clearing::account::is_account;
pub use clearing::by_account::ByAccount;
use clearing::by_account::OfAccount;
use clearing::cause::Cause;
use ordered::lookup;
use ordered::row::Row;
use std::alloc::{AllocError, Global};

// An account and its firm.
#[derive(Clone, Copy)]
pub struct Member {
    pub account: i64,
    pub firm: u64,
}

impl OfAccount for Member {
    ghost account = { member_account };

    fn account(&self) -> i64 {
        self.account
    }
}

// Firms are numbered from 1 to 8.
fn is_firm(firm: u64) -> bool
    ensures { result ≡ firm_fits firm }
{
    (1..=8).contains(&firm)
}

// At most 32 members, by account, and a cap for each of the eight firms.
#[derive(Drop)]
pub struct FirmTable {
    members: Row<Member, 32>,
    caps: [u64; 8],
    ghost ordered: { in_order member_before members ≡ true },
}

impl FirmTable {
    // A table with no members, where each firm's cap is 0. This is the last time that it asks for memory.
    pub fn new(heap: Global) -> Result<FirmTable, AllocError>
        ensures { IfOk result (λ t. (t.members ≡ []) × (t.caps ≡ replicate 8 0)) }
    {
        let members = Row::new(heap)?;
        Ok(FirmTable {
            members,
            caps: [0; 8],
        })
    }

    // The members, by account.
    pub fn members(&self) -> &[Member]
        ensures value { result.now ≡ self.now.members }
        ensures few { length result.now ≤ 32 }
    {
        self.members.as_slice()
    }

    // The member of an account, where there is one.
    fn member(&self, account: i64) -> Option<Member>
        ensures { result ≡ at_key member_account self.now.members account }
    {
        lookup(&ByAccount, self.members(), account)
    }

    // The firm of an account, where it is in one.
    pub fn firm(&self, account: i64) -> Option<u64>
        ensures { result ≡ firm_of self.now.members account }
    {
        self.member(account).map(|member| member.firm)
    }

    // The cap of a firm; 0 where there is no such firm.
    pub fn cap(&self, firm: u64) -> u64
        ensures { result ≡ cap_of self.now.caps firm }
    {
        if !is_firm(firm) {
            return 0;
        }
        self.caps[(firm - 1) as usize]
    }

    // Whether an account can be placed in a firm.
    fn can_place(&self, account: i64, firm: u64) -> bool
        ensures { result ≡ can_place self.now.members account firm }
    {
        is_account(account)
            && is_firm(firm)
            && !self.members.is_full()
            && self.firm(account).is_none()
    }

    // Places an account that is in no firm yet; by cause 6 nothing changes.
    pub(crate) fn place(&mut self, account: i64, firm: u64) -> Result<(), Cause>
        ensures { MatchResult result (λ _. (can_place self.old.members account firm ≡ true) × Placed self.old.members account firm self.new.members × (self.new.caps ≡ self.old.caps)) (λ c. (can_place self.old.members account firm ≡ false) × (c ≡ BadSetting) × (self.new ≡ self.old)) }
    {
        if !self.can_place(account, firm) {
            return Err(Cause::BadSetting);
        }
        let member = Member { account, firm };
        self.members.add(&ByAccount, member).unwrap();
        Ok(())
    }

    // Sets the cap of a firm to 0 to 999,999,999; by cause 6 nothing changes.
    pub(crate) fn set_cap(&mut self, firm: u64, cap: u64) -> Result<(), Cause>
        ensures { MatchResult result (λ _. ((firm_fits firm && cap_fits cap) ≡ true) × (self.new.caps ≡ slice_set self.old.caps (firm - 1) cap) × (self.new.members ≡ self.old.members)) (λ c. ((firm_fits firm && cap_fits cap) ≡ false) × (c ≡ BadSetting) × (self.new ≡ self.old)) }
    {
        if !is_firm(firm) || cap > 999_999_999 {
            return Err(Cause::BadSetting);
        }
        self.caps[(firm - 1) as usize] = cap;
        Ok(())
    }
}
