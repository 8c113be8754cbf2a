// The firm cap: a layer that limits what all accounts of a firm come to. It goes over whatever is a centre, over caps too.
ghost use Rattle.std.specs.Prelude.{◌≡◌, ◌^◌, ◌<◌};
ghost use Rattle.centres.specs.FirmCap.{CapSet, PlacedIn};
ghost use Rattle.centres.specs.Firms.{cap_no, cap_own, firm_total, layer_over, over_cap, share_of};
ghost use Rattle.clearing.specs.Centre.{answered};
ghost use Rattle.std.proofs.Common.{rules};

use crate::firm_table::{FirmTable, Member};
use clearing::cause::{Cause, Denial, one_up};
use clearing::centre::{Centre, Unsettled};
use clearing::grant::Grant;
use clearing::line::Line;
use clearing::side::Side;

#[derive(Drop)]
pub struct FirmCap<C> {
    below: C,
    firms: FirmTable,
}

impl<C: Centre> FirmCap<C> {
    pub fn new(below: C, firms: FirmTable) -> FirmCap<C>
        ensures below { result.below ≡ below }
        ensures firms { result.firms ≡ firms }
    {
        FirmCap { below, firms }
    }

    // The centre below and the firms, so that a house can change either.
    pub fn into_parts(self) -> (C, FirmTable)
        ensures below { result.0 ≡ self.below }
        ensures firms { result.1 ≡ self.firms }
    {
        let FirmCap { below, firms } = self;
        (below, firms)
    }

    // The depth of this layer.
    fn layer(&self) -> u8
        ensures { result ≡ layer_over (C.Centre.depth self.now.below) }
    {
        one_up(self.below.depth())
    }

    // Places an account in a firm.
    pub fn place(&mut self, account: i64, firm: u64) -> Result<(), Denial>
        ensures { PlacedIn (layer_over (C.Centre.depth self.old.below)) self.old account firm self.new result }
    {
        self.firms
            .place(account, firm)
            .map_err(|cause| Denial::new(cause, self.layer()))
    }

    // Sets the cap of a firm.
    pub fn set_cap(&mut self, firm: u64, cap: u64) -> Result<(), Denial>
        ensures { CapSet (layer_over (C.Centre.depth self.old.below)) self.old firm cap self.new result }
    {
        self.firms
            .set_cap(firm, cap)
            .map_err(|cause| Denial::new(cause, self.layer()))
    }

    // A no by cause 4, where the account's firm would pass its cap with the new lots.
    fn within_cap(&self, account: i64, lots: u64) -> Result<(), Denial>
        ensures { result ≡ answered (cap_no (C.Centre.lines self.now.below) self.now.firms.members self.now.firms.caps (layer_over (C.Centre.depth self.now.below)) account lots) }
    {
        if is_over(&self.below, &self.firms, account, lots) {
            return Err(Denial::new(Cause::OverFirmCap, self.layer()));
        }
        Ok(())
    }
}

impl<C: Centre> Centre for FirmCap<C> {
    ghost lines = { λ s. C.Centre.lines s.below };

    ghost own = { λ s. cap_own (C.Centre.own s.below) s.firms.members s.firms.caps (layer_over (C.Centre.depth s.below)) };

    ghost depth = { λ s. layer_over (C.Centre.depth s.below) };

    // The members with their firms, the caps, and the same below.
    ghost same_settings = { λ s t. (s.firms ≡ t.firms) × C.Centre.same_settings s.below t.below };

    ghost sound = { Prim.search rules };

    ghost denies = { Prim.search rules };

    ghost shallow = { Prim.search rules };

    ghost same_own = { Prim.search rules };

    ghost same_depth = { Prim.search rules };

    ghost same_self = { Prim.search rules };

    ghost same_on = { Prim.search rules };

    fn depth(&self) -> u8 {
        self.layer()
    }

    fn question(&self, account: i64, side: Side, lots: u64) -> Result<(), Denial> {
        self.below.question(account, side, lots)?;
        self.within_cap(account, lots)
    }

    fn reserve(&mut self, account: i64, side: Side, lots: u64) -> Result<Grant, Denial> {
        if let Err(over) = self.within_cap(account, lots) {
            self.below.question(account, side, lots)?;
            return Err(over);
        }
        self.below.reserve(account, side, lots)
    }

    fn settle(&mut self, grant: Grant, lots: u64) -> Result<Grant, Unsettled> {
        self.below.settle(grant, lots)
    }

    fn give_back(&mut self, grant: Grant) -> Result<(), Denial> {
        self.below.give_back(grant)
    }

    fn line(&self, account: i64) -> Option<Line> {
        self.below.line(account)
    }
}

// What a member adds to a firm: all four counts of its line, if it is in that firm. A missing line counts 0.
fn share<C: Centre>(centre: &C, member: &Member, firm: u64) -> u128
    ensures value { result ≡ share_of (C.Centre.lines centre.now) member.now firm }
    ensures bound { result < 2 ^ 66 }
{
    if member.firm != firm {
        return 0;
    }
    centre.line(member.account).map_or(0, |line| line.total())
}

// The counts of all accounts of a firm.
fn total<C: Centre>(centre: &C, firms: &FirmTable, firm: u64) -> u128
    ensures { result ≡ firm_total (C.Centre.lines centre.now) firms.now.members firm }
{
    firms
        .members()
        .iter()
        .map(|member| share(centre, member, firm))
        .sum()
}

// Whether the account's firm would pass its cap with the new lots.
pub(crate) fn is_over<C: Centre>(centre: &C, firms: &FirmTable, account: i64, lots: u64) -> bool
    ensures { result ≡ over_cap (C.Centre.lines centre.now) firms.now.members firms.now.caps account lots }
{
    firms.firm(account).is_some_and(|firm| {
        // A sum that saturates is past any cap too.
        let all = total(centre, firms, firm).saturating_add(u128::from(lots));
        all > u128::from(firms.cap(firm))
    })
}
