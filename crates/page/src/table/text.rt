// A table set from a text of 28 lines, or what is wrong with the text.
ghost use Rattle.std.specs.Prelude.{◌≡◌, ◌+◌, ◌<◌, ◌≤◌, ◌||◌, [], length, take, drop, IfSome, Some, None, Ok, Err, MatchOption, MatchResult, ◌==◌, slice_index, slice_index_or, unwrap_or};
ghost use Rattle.dealing.specs.Replies.{owner};
ghost use Rattle.page.specs.PhraseText.{all_lines, first_line, flaw_of, has_low, line_flaw, refusal_of, shared_pair, text_phrases, twin, unended};
ghost use Rattle.page.specs.Phrases.{ends_blank, filled, phrases, AllWide};

use super::{PhraseTable, WIDTH};
use dealing::refusal::Refusal;
use dealing::reply::{OWNERS, owner_number};
use std::error::Error;
use std::fmt;

// What is wrong with a line of a phrase text.
#[derive(Clone, Copy, PartialEq, Eq, Debug)]
pub enum Flaw {
    // The text ends before the line.
    Missing,
    // The line does not end in byte 10.
    NotEnded,
    Empty,
    // Over 40 bytes.
    TooLong,
    // The first or the last byte is a space.
    EdgedBySpace,
    ByteBelow32,
    // Nothing is due here: the 28 lines are over.
    Surplus,
}

// The words for a flaw, which follow the number of its line.
impl fmt::Display for Flaw {
    ghost use Rattle.page.specs.Messages.{flaw_text};
    ghost use Rattle.std.specs.Prelude.{Some};

    ghost output = { λ flaw. Some (flaw_text flaw) };

    fn fmt<W: fmt::Write>(&self, f: &mut fmt::Formatter<W>) -> fmt::Result {
        f.write_str(match self {
            Flaw::Missing => "is missing",
            Flaw::NotEnded => "does not end in byte 10",
            Flaw::Empty => "is empty",
            Flaw::TooLong => "has over 40 bytes",
            Flaw::EdgedBySpace => "begins or ends with a space",
            Flaw::ByteBelow32 => "has a byte below 32",
            Flaw::Surplus => "is one too many",
        })
    }
}

// Why a phrase text sets no table.
#[derive(Clone, Copy, PartialEq, Eq, Debug)]
pub enum TextFault {
    // The first line that has a flaw, counted from 1.
    Unsound { line: usize, flaw: Flaw },
    // Two places with one phrase: the smallest first, and then the smallest second.
    Shared { first: usize, second: usize },
}

impl TextFault {
    pub fn refusal(self) -> Refusal
        ensures { result ≡ refusal_of self }
    {
        match self {
            TextFault::Unsound { .. } => Refusal::UnsoundText,
            TextFault::Shared { .. } => Refusal::SharedPhrase,
        }
    }
}

// The number that owns the phrase at a place, or 0 where no place is.
fn owner_at(place: usize) -> u8
    ensures { result ≡ unwrap_or (owner place) 0 }
{
    owner_number(place).unwrap_or(0)
}

// The places of a shared phrase are told by the numbers of their owners.
impl fmt::Display for TextFault {
    ghost use Rattle.page.specs.Messages.{fault_text};
    ghost use Rattle.std.specs.Prelude.{Some};

    ghost output = { λ fault. Some (fault_text fault) };

    fn fmt<W: fmt::Write>(&self, f: &mut fmt::Formatter<W>) -> fmt::Result {
        match *self {
            TextFault::Unsound { line, flaw } => write!(f, "line {line} {flaw}"),
            TextFault::Shared { first, second } => {
                let one = owner_at(first);
                let other = owner_at(second);
                write!(f, "outcomes {one} and {other} share one phrase")
            }
        }
    }
}

impl Error for TextFault {}

fn has_low(phrase: &[u8]) -> bool
    ensures { result ≡ has_low phrase.now }
{
    phrase.iter().any(|&b| b < 32)
}

#[tactic(auto, using(crate::proofs::TextLines::ends_blank_last))]
fn is_edged(phrase: &[u8]) -> bool
    ensures { result ≡ (slice_index phrase.now 0 == 32 || ends_blank phrase.now) }
{
    matches!(phrase, [b' ', ..] | [.., b' '])
}

fn judge(phrase: &[u8]) -> Result<(), Flaw>
    ensures { MatchResult result (λ _. flaw_of phrase.now ≡ None) (λ flaw. flaw_of phrase.now ≡ Some flaw) }
{
    if phrase.is_empty() {
        return Err(Flaw::Empty);
    }
    if phrase.len() > WIDTH {
        return Err(Flaw::TooLong);
    }
    if is_edged(phrase) {
        return Err(Flaw::EdgedBySpace);
    }
    if has_low(phrase) {
        return Err(Flaw::ByteBelow32);
    }
    Ok(())
}

// What is wrong where no line ends.
fn unended(text: &[u8]) -> Flaw
    ensures { result ≡ unended text.now }
{
    if text.is_empty() {
        Flaw::Missing
    } else {
        Flaw::NotEnded
    }
}

// The first line without its end, and the text after it.
fn first_line(text: &[u8]) -> Result<(&[u8], &[u8]), Flaw>
    ensures { MatchResult result (λ r. first_line text.now ≡ Some (r.0.now, r.1.now)) (λ flaw. (first_line text.now ≡ None) × (flaw ≡ unended text.now)) }
{
    match text.iter().position(|&b| b == b'\n') {
        Some(end) => Ok((&text[..end], &text[end + 1..])),
        None => Err(unended(text)),
    }
}

// The phrase on the first line, and the text after it.
fn first_phrase(text: &[u8]) -> Result<(&[u8], &[u8]), Flaw>
    ensures { MatchResult result (λ r. (first_line text.now ≡ Some (r.0.now, r.1.now)) × (flaw_of r.0.now ≡ None)) (λ flaw. line_flaw text.now (first_line text.now) ≡ Some flaw) }
{
    let (phrase, rest) = first_line(text)?;
    judge(phrase)?;
    Ok((phrase, rest))
}

fn field(phrase: &[u8]) -> [u8; WIDTH]
    requires { length phrase.now ≤ 40 }
    ensures { result ≡ filled phrase.now }
{
    let mut row = [b' '; WIDTH];
    row[..phrase.len()].copy_from_slice(phrase);
    row
}

// The rows of a text whose 28 lines have no flaw.
fn rows_of(text: &[u8]) -> Result<[[u8; WIDTH]; OWNERS], TextFault>
    ensures { MatchResult result (λ rows. (all_lines text.now ≡ Ok (phrases rows)) × AllWide rows) (λ e. all_lines text.now ≡ Err e) }
{
    let mut rows = [[b' '; WIDTH]; OWNERS];
    let mut rest = text;
    for (place, row) in rows.iter_mut().enumerate() {
        match first_phrase(rest) {
            Ok((phrase, more)) => {
                *row = field(phrase);
                rest = more;
            }
            Err(flaw) => return Err(TextFault::Unsound {
                line: place + 1,
                flaw,
            }),
        }
    }
    if rest.is_empty() {
        Ok(rows)
    } else {
        Err(TextFault::Unsound {
            line: OWNERS + 1,
            flaw: Flaw::Surplus,
        })
    }
}

// Where the row at a place stands again, after that place.
fn twin_of(rows: &[[u8; WIDTH]; OWNERS], place: usize) -> Option<usize>
    requires wide { AllWide rows.now }
    requires within { place < 28 }
    ensures { result ≡ twin (place + 1) (slice_index_or (phrases rows.now) place []) (drop (place + 1) (phrases rows.now)) }
{
    let later = place + 1;
    let gap = rows[later..].iter().position(|row| rows[place] == *row)?;
    Some(later + gap)
}

// Two places with one row: the smallest first, then the smallest second.
fn shared(rows: &[[u8; WIDTH]; OWNERS]) -> Option<(usize, usize)>
    requires { AllWide rows.now }
    ensures { result ≡ shared_pair 0 (phrases rows.now) }
{
    for place in 0..OWNERS {
        if let Some(other) = twin_of(rows, place) {
            return Some((place, other));
        }
    }
    None
}

impl PhraseTable {
    // The table that a text of 28 lines sets.
    pub fn from_text(text: &[u8]) -> Result<PhraseTable, TextFault>
        ensures { MatchResult result (λ t. text_phrases text.now ≡ Ok (phrases t.rows)) (λ e. text_phrases text.now ≡ Err e) }
    {
        let rows = rows_of(text)?;
        if let Some((first, second)) = shared(&rows) {
            return Err(TextFault::Shared { first, second });
        }
        Ok(PhraseTable { rows })
    }

    // Sets this table from a text, or leaves it as it was.
    pub fn set(&mut self, text: &[u8]) -> Result<(), TextFault>
        ensures { MatchResult result (λ _. text_phrases text.now ≡ Ok (phrases self.new.rows)) (λ e. (text_phrases text.now ≡ Err e) × (self.new ≡ self.old)) }
    {
        *self = PhraseTable::from_text(text)?;
        Ok(())
    }
}
