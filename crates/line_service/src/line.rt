//! A line, as its pieces come.
ghost use Rattle.std.specs.Prelude.{◌≡◌, ◌≢◌, ◌+◌, ◌<◌, ◌≤◌, ◌++◌, ◌∷◌, [], length, take, false, Err, IfNone, IfOk, IfSome, OnSome};
ghost use Rattle.std.specs.Io.KnownBytes.{IsAtEnd, Keeps};
ghost use Rattle.line_service.specs.declared.error.ServeError.TheVariants.{TooManyLines};
ghost use Rattle.line_service.specs.Pieces.{HoldsMore, IsWithinLine, TakesPiece};

use crate::error::ServeError;
use crate::output::{TRIES, wait_for_more};
use memchr::memchr;
use std::io;
use std::io::{BufRead, ErrorKind, Write};

/// What was read of a line, and is kept.
#[derive(Clone, Copy)]
pub(crate) struct Piece {
    /// How many bytes of the line are kept, this piece among them.
    pub(crate) len: usize,
    /// Whether the byte 10 of the line came.
    pub(crate) ended: bool,
    /// Whether the reader's buffer is used up.
    pub(crate) used_up: bool,
}

/// Where the line ends that the bytes begin with, if its byte 10 is among them.
pub(crate) fn line_end(bytes: &[u8]) -> Option<usize>
    ensures found { IfSome result (λ end. (end < length bytes.now)
        × IsWithinLine (take end bytes.now) × (take (end + 1) bytes.now ≡ take end bytes.now ++ 10 ∷ [])) }
    ensures none { IfNone result (IsWithinLine bytes.now) }
{
    memchr(b'\n', bytes)
}

/// What a service sees of a line: no more than so many bytes of it.
pub(crate) fn cut(line: &[u8], longest: usize) -> &[u8]
    ensures { result.now ≡ take longest line.now }
{
    &line[..longest.min(line.len())]
}

/// Keeps of the bytes what has room behind the `len` that are kept. Returns how many are then kept.
pub(crate) fn keep(kept: &mut [u8], len: usize, bytes: &[u8]) -> usize
    requires { len ≤ length kept.old }
    ensures room { length kept.new ≡ length kept.old }
    ensures fits { result ≤ length kept.new }
    ensures held { HoldsMore kept.old len kept.new result bytes.now }
{
    let count = bytes.len().min(kept.len() - len);
    kept[len..len + count].copy_from_slice(&bytes[..count]);
    len + count
}

/// Reads on in a line of which `len` bytes are kept, as far as the reader's buffer goes.
pub(crate) fn take_piece<R: BufRead>(
    input: &mut R,
    kept: &mut [u8],
    len: usize,
) -> io::Result<Piece>
    requires { len ≤ length kept.old }
    ensures room { length kept.new ≡ length kept.old }
    ensures piece { IfOk result
        (TakesPiece (R.remaining input.old) (R.remaining input.new) kept.old len kept.new) }
{
    let buffer = input.fill_buf()?;
    match line_end(buffer) {
        Some(end) => {
            let used_up = end + 1 == buffer.len();
            let len = keep(kept, len, &buffer[..end]);
            input.consume(end + 1);
            Ok(Piece {
                len,
                ended: true,
                used_up,
            })
        }
        None => {
            let count = buffer.len();
            let len = keep(kept, len, buffer);
            input.consume(count);
            Ok(Piece {
                len,
                ended: false,
                used_up: true,
            })
        }
    }
}

/// Reads a line to its end, of which `len` bytes are kept and more is to come. Shows what is written before each wait.
pub(crate) fn finish_line<R: BufRead, W: Write>(
    input: &mut R,
    output: &mut W,
    kept: &mut [u8],
    len: usize,
) -> Result<Piece, ServeError>
    requires { len ≤ length kept.old }
    ensures room { length kept.new ≡ length kept.old }
    ensures shown { Keeps (W.contents output.old) (W.contents output.new) }
    ensures piece { IfOk result
        (TakesPiece (R.remaining input.old) (R.remaining input.new) kept.old len kept.new) }
    ensures end { IfOk result (λ piece. piece.ended ≡ false
        → OnSome (R.remaining input.old) (IsAtEnd (R.remaining input.new))) }
    ensures error { result ≢ Err TooManyLines }
{
    let mut len = len;
    for _ in 0..TRIES {
        if !wait_for_more(input, output)? {
            return Ok(Piece {
                len,
                ended: false,
                used_up: true,
            });
        }
        let piece = match take_piece(input, kept, len) {
            Ok(piece) => piece,
            Err(e) => return Err(ServeError::Reading(e)),
        };
        if piece.ended {
            return Ok(piece);
        }
        len = piece.len;
    }
    Err(ServeError::Reading(io::Error::from(ErrorKind::TimedOut)))
}
