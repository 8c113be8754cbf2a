//! Why a rehearsal ends before its scenario does.
ghost use Rattle.std.specs.Prelude.{Some};

use crate::words::Expected;
use house::error::SettingsError;
use std::alloc::AllocError;
use std::error::Error;
use std::{fmt, io};

/// Why a line is not carried out, or not shown.
#[derive(Debug, Drop)]
pub enum Stop {
    Expected(Expected),
    Io(io::Error),
}

impl Stop {
    /// The same, on a line with this number.
    pub(crate) fn on(self, line: usize) -> RehearsalError {
        match self {
            Stop::Expected(expected) => RehearsalError::Line { line, expected },
            Stop::Io(error) => RehearsalError::Io(error),
        }
    }
}

/// Why a rehearsal ends. Lines are counted from 1.
#[derive(Debug, Drop)]
pub enum RehearsalError {
    /// No line `---` ends the settings; the line is the one after the last.
    NoEnd { line: usize },
    /// The settings are not those of a house.
    Settings(SettingsError),
    /// A line that cannot be read.
    Line { line: usize, expected: Expected },
    /// Memory or a write failed.
    Io(io::Error),
}

/// `line 7: expected B or S`.
impl fmt::Display for RehearsalError {
    fn fmt<W: fmt::Write>(&self, f: &mut fmt::Formatter<W>) -> fmt::Result {
        match self {
            RehearsalError::NoEnd { line } => {
                write!(f, "line {line}: expected --- after the settings")
            }
            RehearsalError::Settings(error) => write!(f, "{error}"),
            RehearsalError::Line { line, expected } => {
                write!(f, "line {line}: expected {expected}")
            }
            RehearsalError::Io(error) => write!(f, "{error}"),
        }
    }
}

impl Error for RehearsalError {}

impl From<AllocError> for RehearsalError {
    fn from(error: AllocError) -> RehearsalError {
        RehearsalError::Io(io::Error::from(error))
    }
}

impl From<SettingsError> for RehearsalError {
    fn from(error: SettingsError) -> RehearsalError {
        RehearsalError::Settings(error)
    }
}
