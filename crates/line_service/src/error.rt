//! Why a service over lines stops before its input ends.
use std::error::Error;
use std::{fmt, io};

/// Why a service over lines stops before its input ends.
#[derive(Debug, Drop)]
pub enum ServeError {
    /// The reader failed.
    Reading(io::Error),
    /// The writer failed.
    Writing(io::Error),
    /// More stands behind the last line that the service answers.
    TooManyLines,
}

impl fmt::Display for ServeError {
    fn fmt<W: fmt::Write>(&self, f: &mut fmt::Formatter<W>) -> fmt::Result {
        match self {
            ServeError::Reading(cause) => write!(f, "reading failed: {cause}"),
            ServeError::Writing(cause) => write!(f, "writing failed: {cause}"),
            ServeError::TooManyLines => write!(f, "there are more lines than the service answers"),
        }
    }
}

impl Error for ServeError {}
