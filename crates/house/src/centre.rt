// The centre of a house: by position or prepaid, under any number of firm caps.
ghost use Rattle.house.specs.House.{AccountAdded, AddedToBase, CapSetTo, PlacedTo, from_zero, rows_of};
ghost use Rattle.clearing.specs.Ledger.{account_of, allowances_of};
ghost use Rattle.std.specs.List.{slice_get};
ghost use Rattle.std.specs.Prelude.{◌≡◌, option_map};

use crate::settings::Entry;
use centres::either::Either;
use centres::layers::Layers;
use centres::{PositionCentre, PrepaidCentre};
use clearing::cause::{Cause, Denial};
use clearing::centre::Centre;

/// A centre by position, or a prepaid one.
pub type BaseCentre = Either<PositionCentre, PrepaidCentre>;

/// A house's centre: its firm caps over a centre of one of the two kinds.
pub type HouseCentre = Layers<BaseCentre>;

// A setting as a number from 0 up.
pub(crate) fn from_zero(setting: i64) -> Option<u64>
    ensures { result ≡ from_zero setting }
{
    u64::try_from(setting).ok()
}

// Adds the account of an entry. By cause 6 nothing changes.
pub(crate) fn add(base: &mut BaseCentre, entry: &Entry) -> Result<(), Denial>
    ensures { AddedToBase base.old entry.now.number entry.now.value base.new result }
{
    let Some(setting) = from_zero(entry.value) else {
        return Err(Denial::new(Cause::BadSetting, 0));
    };
    match base {
        Either::First(centre) => centre.add(entry.number, setting),
        Either::Second(centre) => centre.add(entry.number, setting),
    }
}

/// Adds an account with its limit, or with its deposit. By cause 6 nothing changes: the account can't be had or is there
/// already, there is no room for one more, or the setting is out of its range.
pub fn add_account(centre: &mut HouseCentre, account: i64, setting: i64) -> Result<(), Denial>
    ensures { AccountAdded centre.old account setting centre.new result }
{
    let entry = Entry {
        number: account,
        value: setting,
    };
    add(centre.below_mut(), &entry)
}

// Places the account of an entry in a firm of the highest firm cap. By cause 6 of that layer nothing changes.
pub(crate) fn place(centre: &mut HouseCentre, entry: &Entry) -> Result<(), Denial>
    ensures { PlacedTo centre.old entry.now.number entry.now.value centre.new result }
{
    let Some(firm) = from_zero(entry.value) else {
        return Err(Denial::new(Cause::BadSetting, centre.depth()));
    };
    centre.place(entry.number, firm)
}

// Sets the cap of the firm of an entry in the highest firm cap. By cause 6 of that layer nothing changes.
pub(crate) fn set(centre: &mut HouseCentre, entry: &Entry) -> Result<(), Denial>
    ensures { CapSetTo centre.old entry.now.number entry.now.value centre.new result }
{
    match (from_zero(entry.number), from_zero(entry.value)) {
        (Some(firm), Some(cap)) => centre.set_cap(firm, cap),
        _ => Err(Denial::new(Cause::BadSetting, centre.depth())),
    }
}

/// Sets the cap of a firm in the highest firm cap. By cause 6 of that layer nothing changes: there is no such firm, the cap
/// is out of its range, or the house has no firm cap.
pub fn set_cap(centre: &mut HouseCentre, firm: i64, cap: i64) -> Result<(), Denial>
    ensures { CapSetTo centre.old firm cap centre.new result }
{
    let entry = Entry {
        number: firm,
        value: cap,
    };
    set(centre, &entry)
}

/// The account at a place, the smallest at 0: places go up by account, and none is left out.
pub fn account_at(centre: &HouseCentre, at: usize) -> Option<i64>
    ensures { result ≡ option_map account_of (slice_get (rows_of centre.now.below) at) }
{
    match centre.below() {
        Either::First(centre) => centre.account_at(at),
        Either::Second(centre) => centre.account_at(at),
    }
}

/// The limit or the deposit of an account, where it has a line.
pub fn allowance(centre: &HouseCentre, account: i64) -> Option<u64>
    ensures { result ≡ allowances_of (rows_of centre.now.below) account }
{
    match centre.below() {
        Either::First(centre) => centre.allowance(account),
        Either::Second(centre) => centre.allowance(account),
    }
}
