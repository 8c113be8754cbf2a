// Why a call is refused, in the sequence in which the conditions are judged.
ghost use Rattle.dealing.specs.Replies.{denial, refusal_number};
ghost use Rattle.dealing.specs.Words.{refusal_text, refusal_words};
ghost use Rattle.std.specs.Prelude.{◌≡◌, Some};

use clearing::cause::Denial;
use std::error::Error;
use std::fmt;

/// The first condition that held for a call, a text, a line or a command that is refused.
///
/// docs/FLOOR.md, section 11, states each condition in full, which calls it concerns, and the
/// sequence in which a call's conditions are judged. What is refused changes nothing.
#[derive(Clone, Copy, PartialEq, Eq, Debug)]
pub enum Refusal {
    /// 1: the market's period forbids the call (docs/FLOOR.md, section 10).
    WrongPeriod,
    /// 2: an entry's lots are not 1 to 1,000,000.
    LotsOutOfRange,
    /// 3: a market entry would queue its rest, or has a price other than 0.
    MarketTerms,
    /// 4: a limited price is outside the band, to which both of its ends belong. Or an opening's terms,
    /// in price steps, are out of range: the low end is the higher one, an end is under -999,999,999
    /// or over 999,999,999, or the deviation is negative or over 999,999,999.
    PriceOutOfBand,
    /// 5: all order numbers, 1 to 999,999, have been given.
    NumbersUsedUp,
    /// 6: the walk would come to an order of its own account and would have traded nothing by then.
    OwnOrderFirst,
    /// 7: an entry that is to trade whole or not at all would not trade whole.
    NotInFull,
    /// 8: the register, of 512 places, has no room for all the trades of the walk.
    RegisterFull,
    /// 9: what is left of the entry has no place in its queue, of 64 orders.
    QueueFull,
    /// 10: no resting order has the number.
    NoSuchOrder,
    /// 11: the order is another account's.
    NotYourOrder,
    /// 12: a reduction would take no lot off, or leave no lot of the order.
    ReductionOutOfRange,
    /// 13: the centre's line of an account does not cover what the account has resting.
    OutOfStep,
    /// 14: the centre says no to the entry's account, side and lots. Cause and depth, 0 to 99, go with it
    /// (docs/CENTRE.md, section 2). A market draws causes 1 to 4; the page has room for all six.
    CentreDenies(Denial),
    /// 15: a phrase text is not 28 lines, or one of its phrases is unsound (docs/PAGE.md, section 3).
    UnsoundText,
    /// 16: two phrases of a text are equal.
    SharedPhrase,
    /// 17: there are fewer than 86 bytes to print into, or to read back.
    LineTooShort,
    /// 18: a command line is not 37 bytes (docs/PAGE.md, section 1).
    CommandLength,
    /// 19: a byte in columns 1 to 4 of a command is not due there.
    CommandLetter,
    /// 20: a number field of a command is malformed, blank where a number is due, or filled where
    /// blanks are due.
    CommandNumber,
    /// 21: a line to read back was never printed so, or a reply cannot be printed: it owns no phrase, or
    /// one of its numbers does not fit the columns (docs/PAGE.md, section 2).
    NotPrintable,
}

impl Refusal {
    /// The number that the page shows: 1 to 21, each with its refusal.
    pub fn number(self) -> u8
        ensures { result ≡ refusal_number self }
    {
        match self {
            Refusal::WrongPeriod => 1,
            Refusal::LotsOutOfRange => 2,
            Refusal::MarketTerms => 3,
            Refusal::PriceOutOfBand => 4,
            Refusal::NumbersUsedUp => 5,
            Refusal::OwnOrderFirst => 6,
            Refusal::NotInFull => 7,
            Refusal::RegisterFull => 8,
            Refusal::QueueFull => 9,
            Refusal::NoSuchOrder => 10,
            Refusal::NotYourOrder => 11,
            Refusal::ReductionOutOfRange => 12,
            Refusal::OutOfStep => 13,
            Refusal::CentreDenies(_) => 14,
            Refusal::UnsoundText => 15,
            Refusal::SharedPhrase => 16,
            Refusal::LineTooShort => 17,
            Refusal::CommandLength => 18,
            Refusal::CommandLetter => 19,
            Refusal::CommandNumber => 20,
            Refusal::NotPrintable => 21,
        }
    }

    /// What the centre said, where the refusal is the centre's; none goes with the others.
    pub fn denial(self) -> Option<Denial>
        ensures { result ≡ denial self }
    {
        match self {
            Refusal::CentreDenies(denial) => Some(denial),
            _ => None,
        }
    }

    // What it is called in a log, without its number.
    fn words(self) -> &'static str
        ensures { result.now ≡ refusal_words self }
    {
        match self {
            Refusal::WrongPeriod => "the market's period does not allow the call",
            Refusal::LotsOutOfRange => "the entry's lots are out of range",
            Refusal::MarketTerms => "a market entry has price 0 and queues nothing",
            Refusal::PriceOutOfBand => "the price or the opening's terms are out of range",
            Refusal::NumbersUsedUp => "no order number is left",
            Refusal::OwnOrderFirst => "refused before any trade, the account's own order is next",
            Refusal::NotInFull => "the entry would not trade in full",
            Refusal::RegisterFull => "the trade register is full",
            Refusal::QueueFull => "the queue is full",
            Refusal::NoSuchOrder => "no resting order has this number",
            Refusal::NotYourOrder => "the order belongs to another account",
            Refusal::ReductionOutOfRange => "the lots to reduce by are out of range",
            Refusal::OutOfStep => "the centre holds fewer lots than the account has resting",
            Refusal::CentreDenies(_) => "the centre says no",
            Refusal::UnsoundText => "the phrase text is unsound",
            Refusal::SharedPhrase => "two phrases are equal",
            Refusal::LineTooShort => "the line has under 86 bytes",
            Refusal::CommandLength => "the command does not have 37 bytes",
            Refusal::CommandLetter => "a letter of the command is not known",
            Refusal::CommandNumber => "a number of the command is malformed",
            Refusal::NotPrintable => "the line cannot be printed or read back",
        }
    }
}

/// Words for a log or a message, and the number: `the queue is full (9)`. Of the centre's refusal
/// they show what the centre said. A page shows a phrase of the house's instead.
impl fmt::Display for Refusal {
    ghost output = { λ refusal. Some (refusal_text refusal) };

    fn fmt<W: fmt::Write>(&self, f: &mut fmt::Formatter<W>) -> fmt::Result {
        write!(f, "{} ({})", self.words(), self.number())?;
        match self.denial() {
            Some(denial) => write!(f, ": {denial}"),
            None => Ok(()),
        }
    }
}

impl Error for Refusal {}

/// The market passes on by `?` what the centre says.
impl From<Denial> for Refusal {
    ghost use Rattle.dealing.specs.declared.refusal.Refusal.TheVariants.{CentreDenies};
    ghost use Rattle.std.specs.Prelude.{◌≡◌};

    ghost from_gives = { λ denial refusal. refusal ≡ CentreDenies denial };

    fn from(denial: Denial) -> Refusal {
        Refusal::CentreDenies(denial)
    }
}
