// Command lines, read to calls or refused: what a page of answers does not show. That page, with a line for each way in which
// a command is malformed, is run by `program_runs`.
use dealing::call::Call;
use dealing::refusal::Refusal;
use page::command::read;

const OPEN: &[u8; 37] = b"O             1     100000         50";

const ENTER: &[u8; 37] = b"EBLQ        102       7005         15";

const WITHDRAW: &[u8; 37] = b"W           101          1           ";

const REDUCE: &[u8; 37] = b"R           101          1          4";

const SUSPEND: &[u8; 37] = b"H                                    ";

const RESUME: &[u8; 37] = b"G                                    ";

fn refused(line: &[u8], refusal: Refusal) -> bool {
    read(line) == Err(refusal)
}

// Whether a byte is due in one of the columns 2 to 4, here 1 to 3.
fn due(letter: u8, column: usize, byte: u8) -> bool {
    if letter != b'E' {
        return byte == b' ';
    }
    match column {
        1 => byte == b'B' || byte == b'S',
        2 => byte == b'L' || byte == b'M',
        _ => byte == b'Q' || byte == b'T' || byte == b'F',
    }
}

// Each byte in each of the columns 2 to 4: what is due there is read, and all else is the letters' refusal.
fn each_letter(line: &[u8; 37]) -> bool {
    for column in 1..4 {
        for byte in 0..=255u8 {
            let mut changed = *line;
            changed[column] = byte;
            let right = if due(line[0], column, byte) {
                read(&changed).is_ok()
            } else {
                refused(&changed, Refusal::CommandLetter)
            };
            if !right {
                return false;
            }
        }
    }
    true
}

#[test]
fn letters(rt: HostRuntime) {
    assert!(rt; each_letter(OPEN));
    assert!(rt; each_letter(ENTER));
    assert!(rt; each_letter(WITHDRAW));
    assert!(rt; each_letter(REDUCE));
    assert!(rt; each_letter(SUSPEND));
    assert!(rt; each_letter(RESUME));
    let known = (0..=255u8).filter(|&byte| {
        let mut line = *SUSPEND;
        line[0] = byte;
        !refused(&line, Refusal::CommandLetter)
    });
    assert!(rt; known.count() == 5);
}

// A reduction whose second number is the field.
fn reduction(field: &[u8; 11]) -> [u8; 37] {
    let mut line = *REDUCE;
    line[15..26].copy_from_slice(field);
    line
}

#[test]
fn numbers(rt: HostRuntime) {
    let right: [(&[u8; 11], i64); 6] = [
        (b"          0", 0),
        (b"         -7", -7),
        (b"       7000", 7000),
        (b"99999999999", 99_999_999_999),
        (b"-9999999999", -9_999_999_999),
        (b"        100", 100),
    ];
    for (field, number) in right {
        assert!(rt;
            read(&reduction(field))
                == Ok(Call::Reduce {
                    account: 101,
                    number,
                    lots: 4,
                })
        );
    }
}
