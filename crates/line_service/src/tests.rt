//! What no clause says: that answers are shown before a wait, and that each error ends the service.
ghost use Rattle.std.proofs.Common.{rules};
ghost use Rattle.std.proofs.lemmas.List.{length-take};
ghost use Rattle.std.specs.Prelude.{◌≡◌, ℕ, ◌+◌, ◌%◌, ◌∷◌, [], length, min, ⊤};

use crate::error::ServeError;
use crate::serve::serve;
use crate::service::LineService;
use std::alloc::Global;
use std::cell::Cell;
use std::io;
use std::io::{BufReader, ErrorKind, Read, Write};
use std::test::Fail;

/// Answers with the number, the length and the length of all lines so far, each by its last digit.
#[derive(Drop)]
struct Tally {
    seen: u64,
    printed: [u8; 4],
}

fn digit(number: u64) -> u8
    ensures { result ≡ 48 + number % 10 }
{
    b'0' + (number % 10) as u8
}

impl LineService for Tally {
    ghost State = { ℕ };

    ghost state = { λ tally. tally.seen };

    ghost shown = { λ seen number line. (48 + number % 10) ∷ (48 + min 5 (length line) % 10)
        ∷ (48 + (seen % 10 + min 5 (length line) % 10) % 10) ∷ 10 ∷ [] };

    ghost next = { λ seen line. seen % 10 + min 5 (length line) % 10 };

    ghost printed = { λ tally. tally.printed };

    ghost kept = { λ _ _. ⊤ };

    ghost LONGEST = { 5 };

    ghost LAST = { 6 };

    const LONGEST: usize = 5;

    const LAST: u64 = 6;

    fn answer(&mut self, number: u64, line: &[u8]) {
        let length = line.len().min(5) as u64;
        self.seen = self.seen % 10 + length % 10;
        self.printed = [digit(number), digit(length), digit(self.seen), b'\n'];
    }

    fn printed(&self) -> &[u8] {
        &self.printed
    }

    ghost kept_self = { λ _. tt };

    ghost kept_on = { λ _ _ _ _ _. tt };

    ghost has_room = { Prim.search rules };

    ghost looks_shown = { Prim.search (rules, length-take) };

    ghost looks_next = { Prim.search (rules, length-take) };
}

/// What reader and writer tell of each other.
#[derive(Drop)]
struct Log {
    unshown: Cell<bool>,
    late: Cell<bool>,
}

/// Gives its pieces one by one, each after an interruption, and then fails, or is at its end.
#[derive(Drop)]
struct Pieces<'a> {
    pieces: &'a [&'a [u8]],
    given: usize,
    interrupted: bool,
    fails: bool,
    log: &'a Log,
}

impl Read for Pieces<'_> {
    fn read(&mut self, buf: &mut [u8]) -> io::Result<usize> {
        if self.log.unshown.get() {
            self.log.late.set(true);
        }
        self.interrupted = !self.interrupted;
        if self.interrupted {
            return Err(io::Error::from(ErrorKind::Interrupted));
        }
        if let Some(piece) = self.pieces.get(self.given) {
            self.given += 1;
            let count = piece.len().min(buf.len());
            buf[..count].copy_from_slice(&piece[..count]);
            return Ok(count);
        }
        if self.fails {
            Err(io::Error::from(ErrorKind::BrokenPipe))
        } else {
            Ok(0)
        }
    }
}

/// Takes up to three bytes at once, each time after an interruption, while it has room.
#[derive(Drop)]
struct Page<'a> {
    written: Vec<u8>,
    room: usize,
    interrupted: bool,
    log: &'a Log,
}

impl Write for Page<'_> {
    fn write(&mut self, buf: &[u8]) -> io::Result<usize> {
        self.interrupted = !self.interrupted;
        if self.interrupted {
            return Err(io::Error::from(ErrorKind::Interrupted));
        }
        let count = buf.len().min(3).min(self.room);
        if count == 0 {
            return Err(io::Error::from(ErrorKind::StorageFull));
        }
        self.written.extend_from_slice(&buf[..count])?;
        self.room -= count;
        self.log.unshown.set(true);
        Ok(count)
    }

    fn flush(&mut self) -> io::Result<()> {
        self.log.unshown.set(false);
        Ok(())
    }
}

/// How a service ended.
#[derive(Drop)]
struct Ended {
    result: Result<(), ServeError>,
    written: Vec<u8>,
    /// Whether each answer was shown before the next read, and at the end.
    in_time: bool,
}

fn run(heap: Global, pieces: &[&[u8]], fails: bool, room: usize) -> io::Result<Ended> {
    let log = Log {
        unshown: Cell::new(false),
        late: Cell::new(false),
    };
    let pieces = Pieces {
        pieces,
        given: 0,
        interrupted: false,
        fails,
        log: &log,
    };
    let mut input = BufReader::new(heap, pieces)?;
    let mut output = Page {
        written: Vec::new(heap),
        room,
        interrupted: false,
        log: &log,
    };
    let mut service = Tally {
        seen: 0,
        printed: [0; 4],
    };
    let result = serve(&mut service, &mut input, &mut output);
    let in_time = !log.late.get() && (result.is_err() || !log.unshown.get());
    Ok(Ended {
        result,
        written: output.written,
        in_time,
    })
}

#[test]
fn each_line_is_answered(rt: HostRuntime) -> Result<(), Fail> {
    let cases: [(&[&[u8]], &str); 7] = [
        (&[], ""),
        (&[b"\n"], "100\n"),
        (&[b"ab\ncde\n", b"f\n"], "122\n235\n316\n"),
        (&[b"a", b"b\n\nc", b"\r\n"], "122\n202\n324\n"),
        (&[b"ab", b"c"], "133\n"),
        // An end that passes, as at a terminal: the begun line is answered, and the reader is asked once more.
        (&[b"ab", b"", b"c\n"], "122\n213\n"),
        (
            &[b"abcd", b"efgh", b"ij\nk\n", b"abcdefg\nl"],
            "155\n216\n351\n412\n",
        ),
    ];
    for (pieces, page) in cases {
        let ended = run(rt.alloc(), pieces, false, 99)?;
        assert!(rt; ended.result.is_ok());
        assert!(rt; ended.in_time);
        assert_eq!(rt; ended.written.as_slice(), page.as_bytes());
    }
    Ok(())
}

#[test]
fn errors_end_the_service(rt: HostRuntime) -> Result<(), Fail> {
    let read = run(rt.alloc(), &[b"ab\nc", b"d"], true, 99)?;
    assert!(rt;
        matches!(read.result, Err(ServeError::Reading(e)) if e.kind() == ErrorKind::BrokenPipe)
    );
    assert!(rt; read.in_time);
    assert_eq!(rt; read.written.as_slice(), b"122\n".as_slice());

    let write = run(rt.alloc(), &[b"ab\nc\n", b"d\n"], false, 5)?;
    assert!(rt;
        matches!(write.result, Err(ServeError::Writing(e)) if e.kind() == ErrorKind::StorageFull)
    );
    assert_eq!(rt; write.written.as_slice(), b"122\n2".as_slice());

    let many = run(rt.alloc(), &[b"a\na\na\na\na\na\n", b"b"], false, 99)?;
    assert!(rt; matches!(many.result, Err(ServeError::TooManyLines)));
    assert!(rt; many.in_time);
    assert_eq!(rt;
        many.written.as_slice(),
        b"111\n212\n313\n414\n515\n616\n".as_slice()
    );

    let last = run(rt.alloc(), &[b"a\na\na\na\na\na"], false, 99)?;
    assert!(rt; last.result.is_ok());
    Ok(())
}
