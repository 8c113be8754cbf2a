//! What a line of a scenario asks for.
ghost use Rattle.scenario.specs.Texts.{alone, number_of, number_or, texts, word_at, words_of};
ghost use Rattle.scenario.specs.Asked.{account_of, again_of, asked, call_of, called_of, entry_of, firm_of, instrument, kind_of, opening_of, reduction_of, repeated_of, rest_of, shown_of, side_of, view_of, withdrawal_of};
ghost use Rattle.scenario.specs.Messages.{expected_text};
ghost use Rattle.std.specs.Prelude.{◌≡◌, ◌<◌, IfOk, Some};

use clearing::side::Side;
use dealing::call::{Call, Entry, Kind, Rest};
use std::alloc::{AllocError, Global};
use std::error::Error;
use std::fmt;

/// What shows the state of the house.
#[derive(Clone, Copy, PartialEq, Eq, Debug)]
pub enum View {
    /// Both queues.
    Book,
    /// The register.
    Trades,
    /// Period, band, deviation, numbers given and trades made.
    Market,
    /// The centre's lines.
    Lines,
}

/// What is done in a house.
#[derive(Clone, Copy, PartialEq, Eq, Debug)]
pub enum Action {
    /// A call to the market, made once and then so many times again.
    Call { call: Call, again: u64 },
    /// Adds an account with its limit or its deposit.
    Account { account: i64, setting: i64 },
    /// Sets the cap of a firm, in the top layer.
    Firm { firm: i64, cap: i64 },
}

/// What a line asks for.
#[derive(Clone, Copy, PartialEq, Eq, Debug)]
pub enum Asked {
    Do(Action),
    Show(View),
}

/// What was expected where a line cannot be read.
#[derive(Clone, Copy, PartialEq, Eq, Debug)]
pub enum Expected {
    /// The first word of a line.
    Start,
    /// The instrument of a call or of what is shown.
    Instrument,
    /// The word of a call.
    Call,
    Side,
    Kind,
    Rest,
    /// A number that fits an `i64`.
    Number,
    /// How many times a call is made.
    Times,
    /// What is to be shown.
    View,
    /// The end of the line.
    End,
    /// A line of UTF-8.
    Text,
}

impl fmt::Display for Expected {
    ghost output = { λ expected. Some (expected_text expected) };

    fn fmt<W: fmt::Write>(&self, f: &mut fmt::Formatter<W>) -> fmt::Result {
        f.write_str(match self {
            Expected::Start => "1, times, account, firm or show",
            Expected::Instrument => "instrument 1",
            Expected::Call => "open, enter, withdraw, reduce, suspend or resume",
            Expected::Side => "B or S",
            Expected::Kind => "L or M",
            Expected::Rest => "Q, T or F",
            Expected::Number => "a number from -9223372036854775808 to 9223372036854775807",
            Expected::Times => "a number of times from 1 up",
            Expected::View => "book, trades, market or lines",
            Expected::End => "nothing more",
            Expected::Text => "UTF-8",
        })
    }
}

impl Error for Expected {}

/// The words of a line, which are parted by blanks, byte 32.
pub fn words_of(heap: Global, line: &str) -> Result<Vec<&str>, AllocError>
    ensures { IfOk result (λ words. texts words.items ≡ words_of line.now) }
{
    line.split(' ')
        .filter(|word| !word.is_empty())
        .collect(heap)
}

// The word at a place, or the empty text where the line has no such word.
fn word_at<'a>(words: &[&'a str], at: usize) -> &'a str
    ensures { result.now ≡ word_at (texts words.now) at }
{
    words.get(at).copied().unwrap_or("")
}

// What so many words ask for, where the line has no more of them.
fn alone<T: Copy>(words: &[&str], count: usize, it: T) -> Result<T, Expected>
    ensures { result ≡ alone count (texts words.now) it }
{
    if words.len() > count {
        return Err(Expected::End);
    }
    Ok(it)
}

fn number_of(word: &str) -> Option<i64>
    ensures { result ≡ number_of word.now }
{
    word.parse().ok()
}

fn number_at(words: &[&str], at: usize) -> Result<i64, Expected>
    ensures { result ≡ number_or (word_at (texts words.now) at) }
{
    number_of(word_at(words, at)).ok_or(Expected::Number)
}

fn side_of(word: &str) -> Result<Side, Expected>
    ensures { result ≡ side_of word.now }
{
    match word {
        "B" => Ok(Side::Buy),
        "S" => Ok(Side::Sell),
        _ => Err(Expected::Side),
    }
}

fn kind_of(word: &str) -> Result<Kind, Expected>
    ensures { result ≡ kind_of word.now }
{
    match word {
        "L" => Ok(Kind::Limited),
        "M" => Ok(Kind::Market),
        _ => Err(Expected::Kind),
    }
}

fn rest_of(word: &str) -> Result<Rest, Expected>
    ensures { result ≡ rest_of word.now }
{
    match word {
        "Q" => Ok(Rest::Queue),
        "T" => Ok(Rest::TakeOff),
        "F" => Ok(Rest::InFull),
        _ => Err(Expected::Rest),
    }
}

// A scenario has one instrument, number 1.
fn instrument(word: &str) -> Result<(), Expected>
    ensures { result ≡ instrument word.now }
{
    match number_of(word) {
        Some(1) => Ok(()),
        _ => Err(Expected::Instrument),
    }
}

fn opening(words: &[&str]) -> Result<Call, Expected>
    ensures { result ≡ opening_of (texts words.now) }
{
    let call = Call::Open {
        low: number_at(words, 2)?,
        high: number_at(words, 3)?,
        deviation: number_at(words, 4)?,
    };
    alone(words, 5, call)
}

fn entry(words: &[&str]) -> Result<Call, Expected>
    ensures { result ≡ entry_of (texts words.now) }
{
    let entry = Entry {
        account: number_at(words, 2)?,
        side: side_of(word_at(words, 3))?,
        kind: kind_of(word_at(words, 4))?,
        rest: rest_of(word_at(words, 5))?,
        price: number_at(words, 6)?,
        lots: number_at(words, 7)?,
    };
    alone(words, 8, Call::Enter(entry))
}

fn withdrawal(words: &[&str]) -> Result<Call, Expected>
    ensures { result ≡ withdrawal_of (texts words.now) }
{
    let call = Call::Withdraw {
        account: number_at(words, 2)?,
        number: number_at(words, 3)?,
    };
    alone(words, 4, call)
}

fn reduction(words: &[&str]) -> Result<Call, Expected>
    ensures { result ≡ reduction_of (texts words.now) }
{
    let call = Call::Reduce {
        account: number_at(words, 2)?,
        number: number_at(words, 3)?,
        lots: number_at(words, 4)?,
    };
    alone(words, 5, call)
}

// The call that words ask for, of which the first names the instrument.
fn call_of(words: &[&str]) -> Result<Call, Expected>
    ensures { result ≡ call_of (texts words.now) }
{
    instrument(word_at(words, 0))?;
    match word_at(words, 1) {
        "open" => opening(words),
        "enter" => entry(words),
        "withdraw" => withdrawal(words),
        "reduce" => reduction(words),
        "suspend" => alone(words, 2, Call::Suspend),
        "resume" => alone(words, 2, Call::Resume),
        _ => Err(Expected::Call),
    }
}

// How many times more than once.
fn again_of(word: &str) -> Result<u64, Expected>
    ensures { result ≡ again_of word.now }
{
    match number_of(word) {
        Some(times) if times >= 1 => Ok(times.unsigned_abs() - 1),
        _ => Err(Expected::Times),
    }
}

fn view_of(word: &str) -> Result<View, Expected>
    ensures { result ≡ view_of word.now }
{
    match word {
        "book" => Ok(View::Book),
        "trades" => Ok(View::Trades),
        "market" => Ok(View::Market),
        "lines" => Ok(View::Lines),
        _ => Err(Expected::View),
    }
}

fn repeated(words: &[&str]) -> Result<Asked, Expected>
    ensures { result ≡ repeated_of (texts words.now) }
{
    let again = again_of(word_at(words, 1))?;
    let call = match words.get(2..) {
        Some(call) => call_of(call)?,
        None => return Err(Expected::Instrument),
    };
    Ok(Asked::Do(Action::Call { call, again }))
}

fn account(words: &[&str]) -> Result<Asked, Expected>
    ensures { result ≡ account_of (texts words.now) }
{
    let action = Action::Account {
        account: number_at(words, 1)?,
        setting: number_at(words, 2)?,
    };
    alone(words, 3, Asked::Do(action))
}

fn firm(words: &[&str]) -> Result<Asked, Expected>
    ensures { result ≡ firm_of (texts words.now) }
{
    let action = Action::Firm {
        firm: number_at(words, 1)?,
        cap: number_at(words, 2)?,
    };
    alone(words, 3, Asked::Do(action))
}

fn shown(words: &[&str]) -> Result<Asked, Expected>
    ensures { result ≡ shown_of (texts words.now) }
{
    let view = view_of(word_at(words, 1))?;
    if view == View::Lines {
        return alone(words, 2, Asked::Show(view));
    }
    instrument(word_at(words, 2))?;
    alone(words, 3, Asked::Show(view))
}

fn called(words: &[&str]) -> Result<Asked, Expected>
    ensures { result ≡ called_of (texts words.now) }
{
    if number_of(word_at(words, 0)).is_none() {
        return Err(Expected::Start);
    }
    let call = call_of(words)?;
    Ok(Asked::Do(Action::Call { call, again: 0 }))
}

/// What the words of a line ask for, or what was expected at the first word that cannot be read.
pub fn read(words: &[&str]) -> Result<Asked, Expected>
    ensures { result ≡ asked (texts words.now) }
{
    match word_at(words, 0) {
        "times" => repeated(words),
        "account" => account(words),
        "firm" => firm(words),
        "show" => shown(words),
        _ => called(words),
    }
}
