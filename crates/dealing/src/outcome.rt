// What an accepted call comes to.
ghost use Rattle.dealing.specs.Replies.{figures, outcome_number};
ghost use Rattle.dealing.specs.Words.{figures_text, outcome_text, outcome_words};
ghost use Rattle.std.specs.Prelude.{◌≡◌, Some};

use std::fmt;

/// The order that a call was about, and what became of its lots, which are counted in lots.
///
/// docs/FLOOR.md, section 8, says what stands in each field with each outcome.
#[derive(Clone, Copy, PartialEq, Eq, Debug)]
pub struct Figures {
    /// The order's number: 1 to 999,999 in a market's answers.
    pub number: u32,
    /// Lots that traded in the call.
    pub traded: u64,
    /// Lots of the order that rest after the call.
    pub resting: u64,
    /// Lots that the call took off.
    pub taken_off: u64,
}

impl Figures {
    /// Of a call that was about no order: all 0.
    pub const NONE: Figures = Figures {
        number: 0,
        traded: 0,
        resting: 0,
        taken_off: 0,
    };
}

/// `order 3, 10 traded, 0 resting, 5 taken off`.
impl fmt::Display for Figures {
    ghost output = { λ figures. Some (figures_text figures) };

    fn fmt<W: fmt::Write>(&self, f: &mut fmt::Formatter<W>) -> fmt::Result {
        write!(
            f,
            "order {}, {} traded, {} resting, {} taken off",
            self.number, self.traded, self.resting, self.taken_off
        )
    }
}

/// What an accepted call came to. Figures stand only with the outcomes that they belong to.
///
/// docs/FLOOR.md, section 8, says when each outcome comes: of an entry the first six, of a
/// withdrawal and a reduction (section 9) one each, and of the other three calls (section 10) too.
#[derive(Clone, Copy, PartialEq, Eq, Debug)]
pub enum Outcome {
    /// 50: all lots traded.
    Filled(Figures),
    /// 51: no lot traded, all rest.
    Resting(Figures),
    /// 52: some lots traded, the others rest.
    PartResting(Figures),
    /// 53: no lot traded, all were taken off.
    TakenOff(Figures),
    /// 54: some lots traded; nothing more was eligible, and the others were taken off.
    PartOffAtLimit(Figures),
    /// 55: some lots traded; the account's own order came next, and the others were taken off.
    PartOffAtOwn(Figures),
    /// 56: a resting order was withdrawn.
    Withdrawn(Figures),
    /// 57: a resting order was reduced.
    Reduced(Figures),
    /// 58: the market was suspended.
    Suspended,
    /// 59: the market was resumed.
    Resumed,
    /// 60: the market was opened.
    Opened,
}

impl Outcome {
    /// The number that the page shows: 50 to 60, each with its outcome.
    pub fn number(self) -> u8
        ensures { result ≡ outcome_number self }
    {
        match self {
            Outcome::Filled(_) => 50,
            Outcome::Resting(_) => 51,
            Outcome::PartResting(_) => 52,
            Outcome::TakenOff(_) => 53,
            Outcome::PartOffAtLimit(_) => 54,
            Outcome::PartOffAtOwn(_) => 55,
            Outcome::Withdrawn(_) => 56,
            Outcome::Reduced(_) => 57,
            Outcome::Suspended => 58,
            Outcome::Resumed => 59,
            Outcome::Opened => 60,
        }
    }

    /// The figures, all 0 where the outcome has none.
    pub fn figures(self) -> Figures
        ensures { result ≡ figures self }
    {
        match self {
            Outcome::Filled(f)
            | Outcome::Resting(f)
            | Outcome::PartResting(f)
            | Outcome::TakenOff(f)
            | Outcome::PartOffAtLimit(f)
            | Outcome::PartOffAtOwn(f)
            | Outcome::Withdrawn(f)
            | Outcome::Reduced(f) => f,
            Outcome::Suspended | Outcome::Resumed | Outcome::Opened => Figures::NONE,
        }
    }
    // What it is called in a log, without its number.
    fn words(self) -> &'static str
        ensures { result.now ≡ outcome_words self }
    {
        match self {
            Outcome::Filled(_) => "all lots traded",
            Outcome::Resting(_) => "no lot traded, all lots rest",
            Outcome::PartResting(_) => "some lots traded, the others rest",
            Outcome::TakenOff(_) => "no lot traded, all lots taken off",
            Outcome::PartOffAtLimit(_) =>
                "some lots traded, the others taken off, no further order meets",
            Outcome::PartOffAtOwn(_) =>
                "some lots traded, the others taken off, the account's own order is next",
            Outcome::Withdrawn(_) => "the order is withdrawn",
            Outcome::Reduced(_) => "the order is reduced",
            Outcome::Suspended => "the market is suspended",
            Outcome::Resumed => "the market is resumed",
            Outcome::Opened => "the market is opened",
        }
    }
}

/// Words for a log or a message, the number, and the figures where the outcome has some:
/// `all lots traded (50): order 3, 10 traded, 0 resting, 0 taken off`. A page shows a phrase of the
/// house's instead.
impl fmt::Display for Outcome {
    ghost output = { λ outcome. Some (outcome_text outcome) };

    fn fmt<W: fmt::Write>(&self, f: &mut fmt::Formatter<W>) -> fmt::Result {
        write!(f, "{} ({})", self.words(), self.number())?;
        match self {
            Outcome::Filled(figures)
            | Outcome::Resting(figures)
            | Outcome::PartResting(figures)
            | Outcome::TakenOff(figures)
            | Outcome::PartOffAtLimit(figures)
            | Outcome::PartOffAtOwn(figures)
            | Outcome::Withdrawn(figures)
            | Outcome::Reduced(figures) => write!(f, ": {figures}"),
            Outcome::Suspended | Outcome::Resumed | Outcome::Opened => Ok(()),
        }
    }
}
