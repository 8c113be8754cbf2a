//! The rehearsal of a scenario: its settings set up a house, and its lines are carried out one after another.
ghost use Rattle.scenario.specs.Answers.{answer_text};
ghost use Rattle.scenario.specs.Rehearsed.{LineDone, SameParts, line_text, passed_over, view_text};
ghost use Rattle.scenario.specs.Texts.{texts};
ghost use Rattle.std.specs.Io.KnownBytes.{Appends};
ghost use Rattle.std.specs.Prelude.{◌≡◌, OnOk};

use crate::answer::Answer;
use crate::carry::carry_out;
use crate::error::{RehearsalError, Stop};
use crate::floor::HouseFloor;
use crate::state::{show_book, show_lines, show_market, show_trades, show_words};
use crate::words::{Asked, Expected, View, read, words_of};
use house::read as settings;
use market::market::Market;
use market::rule::QueueRule;
use std::alloc::{AllocError, Global};
use std::io;
use std::io::Write;

fn show_view<W: Write, R: QueueRule, C: HouseFloor>(
    heap: Global,
    out: &mut W,
    view: View,
    market: Market<R, C>,
) -> (Market<R, C>, io::Result<()>)
    ensures market { SameParts market result.0 }
    ensures shown { OnOk result.1 (Appends (W.contents out.old) (W.contents out.new) (view_text C.Centre.lines C.HouseFloor.accounts market view)) }
{
    match view {
        View::Book => {
            let shown = show_book(out, &market);
            (market, shown)
        }
        View::Trades => {
            let shown = show_trades(out, &market);
            (market, shown)
        }
        View::Market => {
            let shown = show_market(out, &market);
            (market, shown)
        }
        View::Lines => {
            let (book, centre) = market.into_parts();
            let shown = show_lines(heap, out, &centre);
            (Market::from_parts(book, centre), shown)
        }
    }
}

fn write_answer<W: Write>(out: &mut W, answer: &Answer) -> io::Result<()>
    ensures { OnOk result (Appends (W.contents out.old) (W.contents out.new) (answer_text answer.now)) }
{
    write!(out, "{answer}")
}

fn show_answer<W: Write>(out: &mut W, words: &[&str], answer: &Answer) -> io::Result<()>
    ensures { OnOk result (Appends (W.contents out.old) (W.contents out.new) (line_text words.now (answer_text answer.now))) }
{
    show_words(out, words)?;
    out.write_all(b" = ")?;
    write_answer(out, answer)?;
    out.write_all(b"\n")
}

fn show_state<W: Write, R: QueueRule, C: HouseFloor>(
    heap: Global,
    out: &mut W,
    words: &[&str],
    view: View,
    market: Market<R, C>,
) -> (Market<R, C>, io::Result<()>)
    ensures market { SameParts market result.0 }
    ensures shown { OnOk result.1 (Appends (W.contents out.old) (W.contents out.new)
        (line_text words.now (view_text C.Centre.lines C.HouseFloor.accounts market view))) }
{
    if let Err(error) = show_words(out, words) {
        return (market, Err(error));
    }
    if let Err(error) = out.write_all(b" = ") {
        return (market, Err(error));
    }
    let (market, shown) = show_view(heap, out, view, market);
    match shown {
        Ok(()) => (market, out.write_all(b"\n")),
        Err(error) => (market, Err(error)),
    }
}

// A line without words, or one that begins with `#`.
fn passed_over(words: &[&str]) -> bool
    ensures { result ≡ passed_over (texts words.now) }
{
    match words {
        [] => true,
        [first, ..] => first.starts_with('#'),
    }
}

// Carries out what a line asks for, and shows the line with its answer. A line that cannot be read changes nothing.
fn carry_words<W: Write, R: QueueRule, C: HouseFloor>(
    heap: Global,
    out: &mut W,
    words: &[&str],
    market: Market<R, C>,
) -> (Market<R, C>, Result<(), Stop>)
    ensures { LineDone R.QueueRule.rule C.Centre.own C.Centre.lines C.HouseFloor.accounts C.HouseFloor.account_added C.HouseFloor.cap_set words.now market result.0 (W.contents out.old) (W.contents out.new) result.1 }
{
    if passed_over(words) {
        return (market, Ok(()));
    }
    match read(words) {
        Ok(Asked::Do(action)) => {
            let (market, answer) = carry_out(market, action);
            let shown = show_answer(out, words, &answer);
            (market, shown.map_err(Stop::Io))
        }
        Ok(Asked::Show(view)) => {
            let (market, shown) = show_state(heap, out, words, view, market);
            (market, shown.map_err(Stop::Io))
        }
        Err(expected) => (market, Err(Stop::Expected(expected))),
    }
}

// The text of a line, without a byte 13 at its end.
fn text_of(line: &[u8]) -> Result<&str, Expected> {
    let line = line.strip_suffix(b"\r").unwrap_or(line);
    std::str::from_utf8(line).map_err(|_error| Expected::Text)
}

fn carry_line<W: Write, R: QueueRule, C: HouseFloor>(
    heap: Global,
    out: &mut W,
    line: &[u8],
    market: Market<R, C>,
) -> (Market<R, C>, Result<(), Stop>) {
    let text = match text_of(line) {
        Ok(text) => text,
        Err(expected) => return (market, Err(Stop::Expected(expected))),
    };
    match words_of(heap, text) {
        Ok(words) => carry_words(heap, out, words.as_slice(), market),
        Err(error) => (market, Err(Stop::Io(io::Error::from(error)))),
    }
}

// Carries the lines out, of which the first has this number, up to one that cannot be read.
fn carry_lines<W: Write, R: QueueRule, C: HouseFloor>(
    heap: Global,
    out: &mut W,
    lines: &[&[u8]],
    first: usize,
    market: Market<R, C>,
) -> (Market<R, C>, Result<(), RehearsalError>) {
    let mut market = market;
    for (at, line) in lines.iter().enumerate() {
        let (after, carried) = carry_line(heap, out, line, market);
        market = after;
        if let Err(stop) = carried {
            return (market, Err(stop.on(first.saturating_add(at))));
        }
    }
    (market, Ok(()))
}

// The lines as one text.
fn joined(heap: Global, lines: &[&[u8]]) -> Result<Vec<u8>, AllocError> {
    let mut text = Vec::new(heap);
    for line in lines {
        text.extend_from_slice(line)?;
        text.push(b'\n')?;
    }
    Ok(text)
}

// The lines of a text; what stands behind the last byte 10 is one where it has any byte.
fn lines_of(heap: Global, text: &[u8]) -> Result<Vec<&[u8]>, AllocError> {
    text.strip_suffix(b"\n")
        .unwrap_or(text)
        .split(|byte| *byte == b'\n')
        .collect(heap)
}

/// Rehearses a scenario (docs/REHEARSAL.md): sets up the house that its settings say, up to the line `---`, and carries out
/// the lines after it. Each is printed with its answer, but for those without words and comments. A line that cannot be
/// read ends it; what came before stays printed.
pub fn rehearse<W: Write>(heap: Global, text: &[u8], out: &mut W) -> Result<(), RehearsalError> {
    let lines = lines_of(heap, text)?;
    let lines = lines.as_slice();
    let end = lines.iter().position(|line| text_of(line) == Ok("---"));
    let (Some(said), Some(asked)) = (
        end.and_then(|end| lines.get(..end)),
        end.and_then(|end| lines.get(end + 1..)),
    ) else {
        let behind = if text.is_empty() {
            1
        } else {
            lines.len().saturating_add(1)
        };
        return Err(RehearsalError::NoEnd { line: behind });
    };
    let house = settings::read_bytes(heap, joined(heap, said)?.as_slice())?;
    let market = Market::new(heap, house.rule, house.centre)?;
    let first = said.len().saturating_add(2);
    let (market, carried) = carry_lines(heap, out, asked, first, market);
    let _centre = market.close();
    carried
}
