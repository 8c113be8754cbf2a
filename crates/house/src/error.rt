// Why a text is not the settings of a house.
ghost use Rattle.house.specs.Words.{expected_text, refusal_text};
ghost use Rattle.std.specs.Prelude.{Some};

use crate::place::Place;
use std::error::Error;
use std::fmt;

/// What should stand at a place.
#[derive(Clone, Copy, PartialEq, Eq, Debug)]
pub enum Expected {
    Rule,
    Kind,
    Margin,
    Limit,
    Deposit,
    Account,
    Firm,
    Cap,
    /// No more accounts than a table has room for.
    FewAccounts,
    /// An account only once.
    AccountOnce,
    /// A firm only once.
    FirmOnce,
    /// Keys with their values.
    Table,
    /// Tables, one for each firm cap.
    Tables,
    /// A key that is missing.
    Key(&'static str),
    /// No key but these.
    NoOtherKey(&'static str),
}

impl fmt::Display for Expected {
    ghost output = { λ expected. Some (expected_text expected) };

    fn fmt<W: fmt::Write>(&self, f: &mut fmt::Formatter<W>) -> fmt::Result {
        match self {
            Expected::Rule => f.write_str("\"rate\" or \"yield\""),
            Expected::Kind => f.write_str("\"position\" or \"prepaid\""),
            Expected::Margin => f.write_str("a margin from 1 to 1000000"),
            Expected::Limit => f.write_str("a limit from 0 to 999999999"),
            Expected::Deposit => f.write_str("a deposit from 0 to 1000000000000000"),
            Expected::Account => f.write_str("an account number from 1 to 999999"),
            Expected::Firm => f.write_str("a firm from 1 to 8"),
            Expected::Cap => f.write_str("a cap from 0 to 999999999"),
            Expected::FewAccounts => f.write_str("at most 32 accounts"),
            Expected::AccountOnce => f.write_str("each account once"),
            Expected::FirmOnce => f.write_str("each firm once"),
            Expected::Table => f.write_str("a table"),
            Expected::Tables => f.write_str("a list of tables"),
            Expected::Key(key) => write!(f, "the key {key}"),
            Expected::NoOtherKey(keys) => write!(f, "no other key than {keys}"),
        }
    }
}

/// The text is TOML, and is not the settings of a house.
#[derive(PartialEq, Eq, Debug, Drop)]
pub struct Refusal {
    /// The line of the place, counted from 1 (docs/SETTINGS.md, section 3).
    pub line: usize,
    pub place: Place,
    pub expected: Expected,
}

impl fmt::Display for Refusal {
    ghost output = { λ refusal. Some (refusal_text refusal) };

    fn fmt<W: fmt::Write>(&self, f: &mut fmt::Formatter<W>) -> fmt::Result {
        write!(
            f,
            "line {}: {}: expected {}",
            self.line, self.place, self.expected
        )
    }
}

/// Why a text gives no house.
#[derive(PartialEq, Eq, Debug, Drop)]
pub enum SettingsError {
    /// An allocation failed, which says nothing of the text.
    OutOfMemory,
    /// The text is not UTF-8.
    NotUtf8 {
        /// The line of the first byte that is none, counted from 1.
        line: usize,
    },
    /// The text is not TOML.
    Syntax {
        /// The line where reading stopped, counted from 1.
        line: usize,
        error: toml::de::Error,
    },
    /// The text is TOML, and is not the settings of a house.
    Refused(Refusal),
}

impl fmt::Display for SettingsError {
    fn fmt<W: fmt::Write>(&self, f: &mut fmt::Formatter<W>) -> fmt::Result {
        match self {
            SettingsError::OutOfMemory => f.write_str("out of memory"),
            SettingsError::NotUtf8 { line } => write!(f, "line {line}: expected UTF-8"),
            SettingsError::Syntax { line, error } => {
                write!(f, "line {line}: not TOML: {}", error.message())
            }
            SettingsError::Refused(refusal) => write!(f, "{refusal}"),
        }
    }
}

impl Error for SettingsError {}
