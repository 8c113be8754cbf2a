// Settings made into the centre of a house, whose own causes decide what it takes.
ghost use Rattle.house.specs.Built.{AccountsAdded, AreLayers, CapsSet, LayerBuilt, LayersBuilt, MembersAdded, has_layer, has_number, margin_at, margin_said};
ghost use Rattle.house.specs.House.{from_zero, margin_of, rows_of};
ghost use Rattle.house.specs.Settings.{layer_view};
ghost use Rattle.house.specs.Stop.{IsRefusal};
ghost use Rattle.std.specs.Prelude.{◌≡◌, true, [], None, map, MatchResult, Some, option_map};

use crate::centre::{BaseCentre, HouseCentre, add, from_zero, place, set};
use crate::error::Expected;
use crate::place::Section;
use crate::settings::{Entry, Kind, Layer};
use crate::stop::Stop;
use centres::either::Either;
use centres::position::Position;
use centres::prepaid::Prepaid;
use centres::{PositionCentre, PrepaidCentre};
use clearing::account::is_account;
use std::alloc::Global;

// The rule of a prepaid centre with this margin, where it is in range.
fn prepaid(margin: i64) -> Option<Prepaid>
    ensures { option_map (λ p. Some p.margin) result ≡ margin_at (from_zero margin) }
{
    match from_zero(margin) {
        Some(margin) => Prepaid::new(margin).ok(),
        None => None,
    }
}

// A centre of this kind, with no accounts.
pub(crate) fn base(heap: Global, kind: Kind) -> Result<BaseCentre, Stop>
    ensures { MatchResult result (λ b. (margin_said kind ≡ Some (margin_of b)) × (rows_of b ≡ [])) (λ e. IsRefusal e → margin_said kind ≡ None) }
{
    match kind {
        Kind::Position => Ok(Either::First(PositionCentre::new(heap, Position)?)),
        Kind::Prepaid(margin) => match prepaid(margin) {
            Some(rule) => Ok(Either::Second(PrepaidCentre::new(heap, rule)?)),
            None => Err(Stop::at(heap, Section::Centre, "margin", Expected::Margin)),
        },
    }
}

// What was expected of an account that the centre did not take.
fn of_account(base: &BaseCentre, account: i64) -> Expected {
    let (there, last, allowance) = match base {
        Either::First(centre) => (
            centre.allowance(account),
            centre.account_at(31),
            Expected::Limit,
        ),
        Either::Second(centre) => (
            centre.allowance(account),
            centre.account_at(31),
            Expected::Deposit,
        ),
    };
    if !is_account(account) {
        Expected::Account
    } else if there.is_some() {
        Expected::AccountOnce
    } else if last.is_some() {
        Expected::FewAccounts
    } else {
        allowance
    }
}

// Adds accounts with their limits or deposits.
pub(crate) fn add_accounts(
    heap: Global,
    base: &mut BaseCentre,
    entries: &[Entry],
) -> Result<(), Stop>
    ensures { AccountsAdded base.old entries.now base.new result }
{
    for entry in entries {
        if add(base, entry).is_err() {
            let expected = of_account(base, entry.number);
            return Err(Stop::at_number(heap, Section::Accounts, entry.number, expected));
        }
    }
    Ok(())
}

// What was expected of a member that the highest firm cap did not take.
fn of_member(centre: &HouseCentre, account: i64) -> Expected {
    let Some(top) = centre.tables().last() else {
        return Expected::Table;
    };
    if !is_account(account) {
        Expected::Account
    } else if top.firm(account).is_some() {
        Expected::AccountOnce
    } else if top.members().len() >= 32 {
        Expected::FewAccounts
    } else {
        Expected::Firm
    }
}

// Places accounts in firms of the highest firm cap.
fn add_members(
    heap: Global,
    centre: &mut HouseCentre,
    entries: &[Entry],
    nth: usize,
) -> Result<(), Stop>
    requires { has_layer centre.old ≡ true }
    ensures { MembersAdded centre.old entries.now centre.new result }
{
    for entry in entries {
        if place(centre, entry).is_err() {
            let expected = of_member(centre, entry.number);
            return Err(Stop::at_number(heap, Section::Members(nth), entry.number, expected));
        }
    }
    Ok(())
}

// Whether the number of an entry stands in earlier ones.
fn has_number(entries: &[Entry], entry: &Entry) -> bool
    ensures { result ≡ has_number entry.now.number entries.now }
{
    entries.iter().any(|earlier| earlier.number == entry.number)
}

// What was expected of a firm and its cap that the highest firm cap did not take. No firm that is there refuses the cap 0.
fn of_cap(centre: &mut HouseCentre, firm: i64) -> Expected {
    let entry = Entry {
        number: firm,
        value: 0,
    };
    if set(centre, &entry).is_err() {
        Expected::Firm
    } else {
        Expected::Cap
    }
}

// Sets caps of firms in the highest firm cap, each once.
fn set_caps(
    heap: Global,
    centre: &mut HouseCentre,
    entries: &[Entry],
    nth: usize,
) -> Result<(), Stop>
    requires { has_layer centre.old ≡ true }
    ensures { CapsSet centre.old entries.now centre.new result }
{
    for at in 0..entries.len() {
        let entry = &entries[at];
        let number = entry.number;
        if has_number(&entries[..at], entry) {
            return Err(Stop::at_number(heap, Section::Caps(nth), number, Expected::FirmOnce));
        }
        if set(centre, entry).is_err() {
            let expected = of_cap(centre, number);
            return Err(Stop::at_number(heap, Section::Caps(nth), number, expected));
        }
    }
    Ok(())
}

// Puts a firm cap over the others.
fn add_layer(heap: Global, centre: &mut HouseCentre, layer: &Layer, nth: usize) -> Result<(), Stop>
    ensures { LayerBuilt centre.old (layer_view layer.now) centre.new result }
{
    centre.add_layer()?;
    add_members(heap, centre, layer.members.as_slice(), nth)?;
    set_caps(heap, centre, layer.caps.as_slice(), nth)
}

// Puts firm caps over a centre that has none, the lowest first.
pub(crate) fn add_layers(
    heap: Global,
    centre: &mut HouseCentre,
    layers: &[Layer],
) -> Result<(), Stop>
    requires { centre.old.tables.items ≡ [] }
    ensures { LayersBuilt centre.old (map layer_view layers.now) centre.new result }
{
    for layer in layers {
        let nth = centre.tables().len().saturating_add(1);
        add_layer(heap, centre, layer, nth)?;
    }
    Ok(())
}
