// Why a centre says no, and how far up its layers the no arose.
ghost use Rattle.std.specs.Prelude.{◌≡◌, ◌+◌, Some, min};
ghost use Rattle.clearing.specs.Cause.{Numbered, cause_number, denied};
ghost use Rattle.clearing.specs.Words.{cause_text, denial_text, unknown_cause_text};

use std::error::Error;
use std::fmt;

/// Each cause has its number.
#[derive(Clone, Copy, PartialEq, Eq, Debug)]
pub enum Cause {
    /// The account has no line.
    NoLine = 1,
    /// Too few or too many lots (1 to 1,000,000 are allowed), or more than 999,999,999 held and settled on the side.
    OutOfRange = 2,
    /// The centre's own rule.
    CentreRule = 3,
    /// A firm cap.
    OverFirmCap = 4,
    /// More lots than the grant has, or than its line holds.
    NotHeld = 5,
    /// A setting, an account or a firm that can't be had.
    BadSetting = 6,
}

impl Cause {
    pub fn number(self) -> u8
        ensures { result ≡ cause_number self }
    {
        self as u8
    }
}

/// A number that no cause has.
#[derive(Clone, Copy, PartialEq, Eq, Debug)]
pub struct UnknownCause(pub u8);

impl TryFrom<u8> for Cause {
    type Error = UnknownCause;

    ghost try_from_gives = { Numbered };

    fn try_from(number: u8) -> Result<Cause, UnknownCause> {
        match number {
            1 => Ok(Cause::NoLine),
            2 => Ok(Cause::OutOfRange),
            3 => Ok(Cause::CentreRule),
            4 => Ok(Cause::OverFirmCap),
            5 => Ok(Cause::NotHeld),
            6 => Ok(Cause::BadSetting),
            _ => Err(UnknownCause(number)),
        }
    }
}

// A cause in a back office's words.
impl fmt::Display for Cause {
    ghost output = { λ cause. Some (cause_text cause) };

    fn fmt<W: fmt::Write>(&self, f: &mut fmt::Formatter<W>) -> fmt::Result {
        f.write_str(match self {
            Cause::NoLine => "the account has no line",
            Cause::OutOfRange => "the lots are out of range",
            Cause::CentreRule => "the centre's own rule",
            Cause::OverFirmCap => "a firm's cap would be passed",
            Cause::NotHeld => "so many lots are not held",
            Cause::BadSetting => "no such setting can be made",
        })
    }
}

impl fmt::Display for UnknownCause {
    ghost output = { λ unknown. Some (unknown_cause_text unknown) };

    fn fmt<W: fmt::Write>(&self, f: &mut fmt::Formatter<W>) -> fmt::Result {
        write!(f, "no cause has the number {}", self.0)
    }
}

impl Error for UnknownCause {}

/// A no, with the depth of the layer that says it: 0 for the bottom, 1 for the first layer, 99 from the 99th on
/// (docs/CENTRE.md, section 2).
#[derive(Clone, Copy, PartialEq, Eq, Debug)]
pub struct Denial {
    pub cause: Cause,
    pub depth: u8,
}

impl Denial {
    pub fn new(cause: Cause, depth: u8) -> Denial
        ensures { result ≡ denied cause depth }
    {
        Denial { cause, depth }
    }
}

impl fmt::Display for Denial {
    ghost output = { λ denial. Some (denial_text denial) };

    fn fmt<W: fmt::Write>(&self, f: &mut fmt::Formatter<W>) -> fmt::Result {
        write!(
            f,
            "{} (cause {}, depth {})",
            self.cause,
            self.cause.number(),
            self.depth
        )
    }
}

impl Error for Denial {}

/// The depth of a layer over one at this depth: it stops growing at 99.
pub fn one_up(depth: u8) -> u8
    ensures { result ≡ min (depth + 1) 99 }
{
    depth.saturating_add(1).min(99)
}
