// Where in the settings something stands.
use std::fmt;

/// A table of the settings. Firm caps are counted from 1, the lowest first.
#[derive(Clone, Copy, PartialEq, Eq, Debug)]
pub enum Section {
    /// All that stands outside of the others.
    Document,
    /// The table of the instruments.
    Instruments,
    /// The first instrument.
    Instrument,
    Centre,
    /// The accounts of the centre.
    Accounts,
    /// A firm cap.
    Layer(usize),
    /// The members of a firm cap.
    Members(usize),
    /// The caps of a firm cap.
    Caps(usize),
}

impl fmt::Display for Section {
    ghost use Rattle.house.specs.Words.{section_text};
    ghost use Rattle.std.specs.Prelude.{Some};

    ghost output = { λ section. Some (section_text section) };

    fn fmt<W: fmt::Write>(&self, f: &mut fmt::Formatter<W>) -> fmt::Result {
        match self {
            Section::Document => f.write_str("the settings"),
            Section::Instruments => f.write_str("instrument"),
            Section::Instrument => f.write_str("instrument.1"),
            Section::Centre => f.write_str("centre"),
            Section::Accounts => f.write_str("centre.accounts"),
            Section::Layer(nth) => write!(f, "cap.{nth}"),
            Section::Members(nth) => write!(f, "cap.{nth}.members"),
            Section::Caps(nth) => write!(f, "cap.{nth}.caps"),
        }
    }
}

/// A table, or a key in it.
#[derive(PartialEq, Eq, Debug, Drop)]
pub struct Place {
    pub section: Section,
    /// The key as it is written, or as the number that it is; empty where the table itself is meant.
    pub key: String,
}

impl fmt::Display for Place {
    ghost use Rattle.house.specs.Words.{place_text};
    ghost use Rattle.std.specs.Prelude.{Some};

    ghost output = { λ place. Some (place_text place) };

    fn fmt<W: fmt::Write>(&self, f: &mut fmt::Formatter<W>) -> fmt::Result {
        let key = self.key.as_str();
        if self.key.is_empty() {
            return write!(f, "{}", self.section);
        }
        match self.section {
            Section::Document => f.write_str(key),
            Section::Instruments => write!(f, "instrument.{key}"),
            Section::Instrument => write!(f, "instrument.1.{key}"),
            Section::Centre => write!(f, "centre.{key}"),
            Section::Accounts => write!(f, "centre.accounts.{key}"),
            Section::Layer(nth) => write!(f, "cap.{nth}.{key}"),
            Section::Members(nth) => write!(f, "cap.{nth}.members.{key}"),
            Section::Caps(nth) => write!(f, "cap.{nth}.caps.{key}"),
        }
    }
}
