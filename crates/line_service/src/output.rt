//! What is written, and what is shown of it before the reader waits.
ghost use Rattle.std.specs.Prelude.{◌≡◌, ◌≢◌, ◌<◌, length, true, false, Ok, Err, IfErr, IfSome, OnOk, OnSome};
ghost use Rattle.std.specs.Io.KnownBytes.{Appends, IsAtEnd, Keeps};
ghost use Rattle.line_service.specs.Pieces.{WritesFront};
ghost use Rattle.line_service.specs.declared.error.ServeError.TheVariants.{TooManyLines};

use crate::error::ServeError;
use std::io;
use std::io::{BufRead, ErrorKind, Write};

/// How often a read or a write is tried before it counts as failed.
pub(crate) const TRIES: u64 = u64::MAX;

/// Writes all of the bytes. Where that fails, a front of them is written.
pub(crate) fn write_whole<W: Write>(output: &mut W, bytes: &[u8]) -> Result<(), ServeError>
    ensures ok { OnOk result (Appends (W.contents output.old) (W.contents output.new) bytes.now) }
    ensures err { IfErr result
        (WritesFront (W.contents output.old) (W.contents output.new) bytes.now) }
{
    let mut rest = bytes;
    for _ in 0..TRIES {
        if rest.is_empty() {
            return Ok(());
        }
        match output.write(rest) {
            Ok(0) => return Err(ServeError::Writing(io::Error::from(ErrorKind::WriteZero))),
            Ok(count) => rest = &rest[count..],
            Err(e) => {
                if e.kind() != ErrorKind::Interrupted {
                    return Err(ServeError::Writing(e));
                }
            }
        }
    }
    Err(ServeError::Writing(io::Error::from(ErrorKind::TimedOut)))
}

/// Has the writer show all that is written.
pub(crate) fn flush<W: Write>(output: &mut W) -> Result<(), ServeError>
    ensures shown { Keeps (W.contents output.old) (W.contents output.new) }
    ensures error { result ≢ Err TooManyLines }
{
    output.flush().map_err(ServeError::Writing)
}

/// Waits until the reader has more, and says whether it has.
fn has_more<R: BufRead>(input: &mut R) -> io::Result<bool>
    ensures kept { Keeps (R.remaining input.old) (R.remaining input.new) }
    ensures more { result ≡ Ok true
        → IfSome (R.remaining input.old) (λ text. 0 < length text) }
    ensures end { result ≡ Ok false
        → OnSome (R.remaining input.old) (IsAtEnd (R.remaining input.new)) }
{
    for _ in 0..TRIES {
        match input.fill_buf() {
            Ok(buffer) => return Ok(!buffer.is_empty()),
            Err(e) => {
                if e.kind() != ErrorKind::Interrupted {
                    return Err(e);
                }
            }
        }
    }
    Err(io::Error::from(ErrorKind::TimedOut))
}

/// Shows what is written, then waits until the reader has more, and says whether it has.
pub(crate) fn wait_for_more<R: BufRead, W: Write>(
    input: &mut R,
    output: &mut W,
) -> Result<bool, ServeError>
    ensures shown { Keeps (W.contents output.old) (W.contents output.new) }
    ensures kept { Keeps (R.remaining input.old) (R.remaining input.new) }
    ensures more { result ≡ Ok true
        → IfSome (R.remaining input.old) (λ text. 0 < length text) }
    ensures end { result ≡ Ok false
        → OnSome (R.remaining input.old) (IsAtEnd (R.remaining input.new)) }
    ensures error { result ≢ Err TooManyLines }
{
    flush(output)?;
    has_more(input).map_err(ServeError::Reading)
}

/// Sees to it that a read finds bytes or the end, and need not wait. Returns whether there may be bytes.
pub(crate) fn ready<R: BufRead, W: Write>(
    input: &mut R,
    output: &mut W,
    used_up: bool,
) -> Result<bool, ServeError>
    ensures shown { Keeps (W.contents output.old) (W.contents output.new) }
    ensures kept { Keeps (R.remaining input.old) (R.remaining input.new) }
    ensures end { result ≡ Ok false
        → OnSome (R.remaining input.old) (IsAtEnd (R.remaining input.new)) }
    ensures error { result ≢ Err TooManyLines }
{
    if used_up {
        wait_for_more(input, output)
    } else {
        Ok(true)
    }
}
