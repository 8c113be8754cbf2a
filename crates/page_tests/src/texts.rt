// Phrase texts, sound and not.
ghost use Rattle.std.specs.Prelude.{◌≤◌};

use page::english::english;
use page::table::PhraseTable;
use page::table::text::{Flaw, TextFault};
use std::alloc::{AllocError, Global};
use std::test::Fail;

// As many lines, each a byte from `A` on, and one of them another.
fn text(heap: Global, lines: u8, at: u8, line: &[u8]) -> Result<Vec<u8>, AllocError>
    requires { lines ≤ 30 }
{
    let mut text = Vec::new(heap);
    for i in 0..lines {
        if i == at {
            text.extend_from_slice(line)?;
        } else {
            text.push(b'A' + i)?;
        }
        text.push(b'\n')?;
    }
    Ok(text)
}

fn flawed(text: &[u8], line: usize, flaw: Flaw) -> bool {
    PhraseTable::from_text(text).err() == Some(TextFault::Unsound { line, flaw })
}

fn shares(text: &[u8], first: usize, second: usize) -> bool {
    PhraseTable::from_text(text).err() == Some(TextFault::Shared { first, second })
}

#[test]
fn lines_of_a_text(rt: HostRuntime) -> Result<(), Fail> {
    let heap = rt.alloc();
    assert!(rt; flawed(text(heap, 27, 99, b"")?.as_slice(), 28, Flaw::Missing));
    assert!(rt; flawed(text(heap, 29, 99, b"")?.as_slice(), 29, Flaw::Surplus));
    assert!(rt; flawed(b"", 1, Flaw::Missing));
    let mut open = text(heap, 28, 99, b"")?;
    open.truncate(55);
    assert!(rt; flawed(open.as_slice(), 28, Flaw::NotEnded));
    assert!(rt; PhraseTable::from_text(text(heap, 28, 99, b"")?.as_slice()).is_ok());
    Ok(())
}

#[test]
fn phrases_of_a_text(rt: HostRuntime) -> Result<(), Fail> {
    let heap = rt.alloc();
    let widest = b"\xff234567890123456789012345678901234567890";
    assert!(rt; PhraseTable::from_text(text(heap, 28, 9, widest)?.as_slice()).is_ok());
    let wide = b"12345678901234567890123456789012345678901";
    assert!(rt; flawed(text(heap, 28, 9, wide)?.as_slice(), 10, Flaw::TooLong));
    assert!(rt; flawed(text(heap, 28, 0, b"")?.as_slice(), 1, Flaw::Empty));
    assert!(rt;
        flawed(
            text(heap, 28, 27, b"Z\r")?.as_slice(),
            28,
            Flaw::ByteBelow32,
        )
    );
    assert!(rt; flawed(text(heap, 28, 3, b" x")?.as_slice(), 4, Flaw::EdgedBySpace));
    assert!(rt; flawed(text(heap, 28, 3, b"x ")?.as_slice(), 4, Flaw::EdgedBySpace));
    Ok(())
}

#[test]
fn equal_pairs(rt: HostRuntime) -> Result<(), Fail> {
    let heap = rt.alloc();
    assert!(rt; shares(text(heap, 28, 27, b"A")?.as_slice(), 0, 27));
    assert!(rt; shares(text(heap, 28, 5, b"W")?.as_slice(), 5, 22));
    assert!(rt;
        shares(
            b"a\nb\nc\nd\ne\nf\nc\nh\nc\nj\nk\nl\nm\nn\no\np\nq\nr\ns\nt\nu\nv\nw\nx\ny\nb\nA\nB\n",
            1,
            25,
        )
    );
    assert!(rt;
        shares(
            b"a\nb\nc\nd\ne\nf\nc\nh\nc\nj\nk\nl\nm\nn\no\np\nq\nr\ns\nt\nu\nv\nw\nx\ny\nz\nA\nB\n",
            2,
            6,
        )
    );
    assert!(rt;
        flawed(b"a\na\n", 3, Flaw::Missing),
        "flaws go before equal pairs"
    );
    Ok(())
}

#[test]
fn a_refused_text_changes_nothing(rt: HostRuntime) -> Result<(), Fail> {
    let heap = rt.alloc();
    let mut table = english();
    assert!(rt; table.set(text(heap, 28, 5, b"W")?.as_slice()).is_err());
    assert!(rt; table.phrase(17) == Some(b"Filled".as_slice()));
    assert!(rt; table.set(text(heap, 28, 99, b"")?.as_slice()).is_ok());
    assert!(rt; table.phrase(17) == Some(b"R".as_slice()));
    assert!(rt; table.phrase(28).is_none());
    Ok(())
}
