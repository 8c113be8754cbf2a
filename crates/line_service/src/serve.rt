//! The service over all lines of a reader.
ghost use Rattle.std.specs.Prelude.{◌≡◌, ◌≢◌, ◌≤◌, ℕ, List, length, Err, IfErr, IfOk, OnErr, OnOk, OnSome};
ghost use Rattle.std.specs.Io.KnownBytes.{IsAtEnd, Keeps};
ghost use Rattle.line_service.specs.Lines.{AreLines};
ghost use Rattle.line_service.specs.Page.{Serves};
ghost use Rattle.line_service.specs.Steps.{AnswersNext, LooksAt, ServesNext};
ghost use Rattle.line_service.specs.Stops.{Stops, StopsEarly};
ghost use Rattle.line_service.specs.declared.error.ServeError.TheVariants.{TooManyLines};

use crate::error::ServeError;
use crate::line::{cut, finish_line, keep, line_end};
use crate::output::{flush, ready, wait_for_more, write_whole};
use crate::service::{LineService, ROOM};
use std::io;
use std::io::{BufRead, Write};

/// What stands in the reader's buffer.
#[derive(Clone, Copy)]
enum Begun {
    /// A whole line, which is answered; and whether the buffer is then used up.
    Whole(bool),
    /// A front of a line, of which so many bytes are kept; the buffer is used up.
    Part(usize),
    /// Nothing, at the end.
    Nothing,
}

/// What comes next.
#[derive(Clone, Copy)]
enum Next {
    /// A line, which is answered; and whether the reader's buffer is then used up.
    Line(bool),
    /// A line that ends with the input.
    LastLine,
    /// The end.
    NoLine,
}

/// Where the service stands after a line.
#[derive(Clone, Copy)]
enum Step {
    /// There may be more; and whether the reader's buffer is used up.
    More(bool),
    /// All is answered.
    Done,
}

/// Answers the next line where it stands, if it stands whole in the reader's buffer, and keeps the front of it if not.
fn look<S: LineService, R: BufRead>(
    service: &mut S,
    input: &mut R,
    number: u64,
    kept: &mut [u8],
) -> io::Result<Begun>
    requires number { number ≤ S.LAST }
    requires looks { length kept.old ≡ S.LONGEST }
    ensures room { length kept.new ≡ length kept.old }
    ensures begun { IfOk result (LooksAt S.shown S.next
        (S.state service.old) (S.state service.new) number
        (R.remaining input.old) (R.remaining input.new) (S.printed service.new) kept.new) }
    ensures err { OnErr result (S.state service.new ≡ S.state service.old) }
    ensures kept { S.kept service.old service.new }
{
    let buffer = input.fill_buf()?;
    match line_end(buffer) {
        Some(end) => {
            let used_up = end + 1 == buffer.len();
            service.answer(number, cut(&buffer[..end], kept.len()));
            input.consume(end + 1);
            Ok(Begun::Whole(used_up))
        }
        None if buffer.is_empty() => Ok(Begun::Nothing),
        None => {
            let count = buffer.len();
            let len = keep(kept, 0, buffer);
            input.consume(count);
            Ok(Begun::Part(len))
        }
    }
}

/// Answers the next line, if there is one.
fn answer_next<S: LineService, R: BufRead, W: Write>(
    service: &mut S,
    input: &mut R,
    output: &mut W,
    number: u64,
    kept: &mut [u8],
) -> Result<Next, ServeError>
    requires number { number ≤ S.LAST }
    requires looks { length kept.old ≡ S.LONGEST }
    ensures room { length kept.new ≡ length kept.old }
    ensures shown { Keeps (W.contents output.old) (W.contents output.new) }
    ensures next { IfOk result (AnswersNext S.shown S.next
        (S.state service.old) (S.state service.new) number
        (R.remaining input.old) (R.remaining input.new) (S.printed service.new)) }
    ensures err { OnErr result (S.state service.new ≡ S.state service.old) }
    ensures error { result ≢ Err TooManyLines }
    ensures kept { S.kept service.old service.new }
{
    let begun = match look(service, input, number, kept) {
        Ok(begun) => begun,
        Err(e) => return Err(ServeError::Reading(e)),
    };
    match begun {
        Begun::Whole(used_up) => Ok(Next::Line(used_up)),
        Begun::Nothing => Ok(Next::NoLine),
        Begun::Part(len) => {
            let line = finish_line(input, output, kept, len)?;
            service.answer(number, &kept[..line.len]);
            if line.ended {
                Ok(Next::Line(line.used_up))
            } else {
                Ok(Next::LastLine)
            }
        }
    }
}

/// Answers the next line, if there is one, and writes the answer.
fn serve_next<S: LineService, R: BufRead, W: Write>(
    service: &mut S,
    input: &mut R,
    output: &mut W,
    number: u64,
    kept: &mut [u8],
    used_up: bool,
) -> Result<Step, ServeError>
    requires number { number ≤ S.LAST }
    requires looks { length kept.old ≡ S.LONGEST }
    ensures room { length kept.new ≡ length kept.old }
    ensures served { IfOk result (ServesNext S.shown S.next
        (S.state service.old) (S.state service.new) number
        (R.remaining input.old) (R.remaining input.new)
        (W.contents output.old) (W.contents output.new)) }
    ensures stopped { IfErr result (StopsEarly S.shown S.next
        (S.state service.old) (S.state service.new) number
        (R.remaining input.old) (W.contents output.old) (W.contents output.new)) }
    ensures kept { S.kept service.old service.new }
{
    if !ready(input, output, used_up)? {
        return Ok(Step::Done);
    }
    match answer_next(service, input, output, number, kept)? {
        Next::Line(used_up) => {
            write_whole(output, service.printed())?;
            Ok(Step::More(used_up))
        }
        Next::LastLine => {
            write_whole(output, service.printed())?;
            Ok(Step::More(true))
        }
        Next::NoLine => {
            flush(output)?;
            Ok(Step::Done)
        }
    }
}

/// Answers the lines of the input, from number 1 on, and writes each answer before it looks at the next line.
///
/// A line goes up to a byte 10; what follows the last byte 10 is a line too, unless it is empty. No other byte tells
/// anything here. Behind a line that the end of the input ends, the reader is asked once more, since a terminal may go
/// on after its end. Of a line no more is kept, or handed to the service, than its first `LONGEST` bytes. What is written
/// is flushed each time before the reader may have to wait, and at the end.
///
/// # Errors
/// `Reading` and `Writing` where the reader or the writer fails, and `TooManyLines` where more stands behind the line
/// with the number `LAST`. What was read of the input beyond the lines that were answered is left open after a failure.
pub fn serve<S: LineService, R: BufRead, W: Write>(
    service: &mut S,
    input: &mut R,
    output: &mut W,
) -> Result<(), ServeError>
    // All of the input was read, and the page of all of its lines is written.
    ensures ok { OnOk result ((lines : List (List ℕ)) × AreLines (R.remaining input.old) lines
        × OnSome (R.remaining input.old) (IsAtEnd (R.remaining input.new))
        × (length lines ≤ S.LAST)
        × Serves S.shown S.next (S.state service.old) (S.state service.new) 1 lines
        (W.contents output.old) (W.contents output.new)) }

    // The page of the first lines is written, at an error of writing with a front of one more answer.
    ensures err { IfErr result (Stops S.shown S.next S.LAST
        (S.state service.old) (S.state service.new) (R.remaining input.old) (R.remaining input.new)
        (W.contents output.old) (W.contents output.new)) }

    ensures kept { S.kept service.old service.new }
{
    let mut room = [0; ROOM];
    let kept = &mut room[..S::LONGEST];
    let mut used_up = true;
    for answered in 0..S::LAST {
        match serve_next(service, input, output, answered + 1, kept, used_up)? {
            Step::More(now) => used_up = now,
            Step::Done => return Ok(()),
        }
    }
    if wait_for_more(input, output)? {
        Err(ServeError::TooManyLines)
    } else {
        Ok(())
    }
}
