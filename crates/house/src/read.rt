// A text read to the house that it sets up.
ghost use Rattle.house.specs.Read.{HouseMade, IsRefused, IsSaid, fits, said};
ghost use Rattle.house.specs.House.{passes};
ghost use Rattle.house.specs.Stop.{IsRefusal};
ghost use Rattle.toml.specs.Errors.{IsMemory};
ghost use Rattle.house.specs.Settings.{settings_view};
ghost use Rattle.std.specs.Prelude.{◌≡◌, ◌↔◌, false, IfErr, IfOk, IsUtf8};

use crate::build::{add_accounts, add_layers, base};
use crate::centre::HouseCentre;
use crate::document;
use crate::error::{Refusal, SettingsError};
use crate::line::{line_at, line_of};
use crate::rule::HouseRule;
use crate::settings::Settings;
use crate::stop::Stop;
use std::alloc::Global;

/// A house's settings, as the values that a market of it is made from.
#[derive(Drop)]
pub struct House {
    pub rule: HouseRule,
    pub centre: HouseCentre,
}

// The house that settings make.
fn make_house(heap: Global, settings: &Settings) -> Result<House, Stop>
    ensures { HouseMade (settings_view settings.now) result }
{
    let mut base = base(heap, settings.kind)?;
    add_accounts(heap, &mut base, settings.accounts.as_slice())?;
    let mut centre = HouseCentre::new(heap, base);
    add_layers(heap, &mut centre, settings.layers.as_slice())?;
    Ok(House {
        rule: settings.rule,
        centre,
    })
}

// Why a text is no TOML, or that memory ran out.
fn unparsed(text: &str, error: toml::de::Error) -> SettingsError
    ensures { IsRefused result ↔ ¬ IsMemory error }
{
    match error.span() {
        Some(span) => SettingsError::Syntax {
            line: line_at(text.as_bytes(), span.start),
            error,
        },
        None => SettingsError::OutOfMemory,
    }
}

// Why a text is not the settings of a house, with the line, or that memory ran out.
fn refused(text: &str, stop: Stop) -> SettingsError
    ensures { IsRefused result ↔ IsRefusal stop }
{
    match stop {
        Stop::OutOfMemory => SettingsError::OutOfMemory,
        Stop::Refused(place, expected) => SettingsError::Refused(Refusal {
            line: line_of(text, &place),
            place,
            expected,
        }),
    }
}

/// Reads the settings of a house (docs/SETTINGS.md). The house is the one that the text says, with every line empty. A text
/// is refused only where it is no TOML, says no house, or one that its own centre does not take; no house is read from such
/// a text. The other error is want of memory.
pub fn read(heap: Global, text: &str) -> Result<House, SettingsError>
    ensures house { IfOk result (λ h. IsSaid text.now h) }
    ensures refused { IfErr result (λ e. IsRefused e → passes fits (said text.now) ≡ false) }
{
    let document = match toml::table_from_str(heap, text) {
        Ok(document) => document,
        Err(error) => return Err(unparsed(text, error)),
    };
    let settings = match document::settings(heap, &document) {
        Ok(settings) => settings,
        Err(stop) => return Err(refused(text, stop)),
    };
    match make_house(heap, &settings) {
        Ok(house) => Ok(house),
        Err(stop) => Err(refused(text, stop)),
    }
}

/// Reads the settings of a house from bytes, which are refused too where they are not UTF-8.
pub fn read_bytes(heap: Global, text: &[u8]) -> Result<House, SettingsError>
    ensures house { IfOk result (λ h. IsUtf8 text.now × IsSaid text.now h) }
    ensures refused { IfErr result (λ e. IsRefused e → IsUtf8 text.now → passes fits (said text.now) ≡ false) }
{
    match std::str::from_utf8(text) {
        Ok(text) => read(heap, text),
        Err(error) => Err(SettingsError::NotUtf8 {
            line: line_at(text, error.valid_up_to()),
        }),
    }
}
