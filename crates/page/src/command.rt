// A command line read to its call.
ghost use Rattle.std.specs.Prelude.{◌≡◌, ◌^◌, ◌<◌, ◌≤◌, length, take, drop, IfSome, Some};
ghost use Rattle.page.specs.Bytes.{blank, magnitude, unblanked, written};
ghost use Rattle.page.specs.Bytes.{number as number_in};
ghost use Rattle.page.specs.Command.{call_of, head_of, kind_of, read_command, rest_of, side_of, where_holds, OneLineEach};

use clearing::side::Side;
use dealing::call::{Call, Entry, Kind, Rest};
use dealing::refusal::Refusal;

// Without its byte 10.
const COMMAND_LENGTH: usize = 37;

// What the letters in columns 1 to 4 ask for.
#[derive(Clone, Copy)]
enum Head {
    Open,
    Enter(Side, Kind, Rest),
    Withdraw,
    Reduce,
    Suspend,
    Resume,
}

fn side(b: u8) -> Option<Side>
    ensures { result ≡ side_of b }
{
    match b as char {
        'B' => Some(Side::Buy),
        'S' => Some(Side::Sell),
        _ => None,
    }
}

fn kind(b: u8) -> Option<Kind>
    ensures { result ≡ kind_of b }
{
    match b as char {
        'L' => Some(Kind::Limited),
        'M' => Some(Kind::Market),
        _ => None,
    }
}

fn rest(b: u8) -> Option<Rest>
    ensures { result ≡ rest_of b }
{
    match b as char {
        'Q' => Some(Rest::Queue),
        'T' => Some(Rest::TakeOff),
        'F' => Some(Rest::InFull),
        _ => None,
    }
}

// A call that has no letter but its own, where columns 2 to 4 are blank.
fn alone(head: Head, line: &[u8; COMMAND_LENGTH]) -> Option<Head>
    ensures { result ≡ where_holds (blank (take 3 (drop 1 line.now))) (Some head) }
{
    is_blank(&line[1..4]).then_some(head)
}

// Which call the letters ask for: that of column 1 alone, or with the three after it.
fn letters(line: &[u8; COMMAND_LENGTH]) -> Option<Head>
    ensures { result ≡ head_of line.now }
{
    match line[0] as char {
        'O' => alone(Head::Open, line),
        'E' => Some(Head::Enter(side(line[1])?, kind(line[2])?, rest(line[3])?)),
        'W' => alone(Head::Withdraw, line),
        'R' => alone(Head::Reduce, line),
        'H' => alone(Head::Suspend, line),
        'G' => alone(Head::Resume, line),
        _ => None,
    }
}

fn is_blank(bytes: &[u8]) -> bool
    ensures { result ≡ blank bytes.now }
{
    bytes.iter().all(|&b| b == b' ')
}

// Digits of which the first is not 0.
fn magnitude(bytes: &[u8]) -> Option<u64>
    requires { length bytes.now ≤ 11 }
    ensures value { result ≡ magnitude bytes.now }
    ensures bound { IfSome result (λ n. n < 10 ^ 11) }
{
    if let [] | [b'0', ..] = bytes {
        return None;
    }
    let mut n = 0;
    for b in bytes {
        if !b.is_ascii_digit() {
            return None;
        }
        n = 10 * n + u64::from(*b - b'0');
    }
    Some(n)
}

// A number as it is written, with nothing before or after it.
fn written(bytes: &[u8]) -> Option<i64>
    requires { length bytes.now ≤ 11 }
    ensures { result ≡ written bytes.now }
{
    match bytes {
        [b'0'] => Some(0),
        [b'-', digits @ ..] => Some(-(magnitude(digits)? as i64)),
        _ => Some(magnitude(bytes)? as i64),
    }
}

// The number in a field, or none where the field is blank or malformed.
fn number(field: &[u8]) -> Option<i64>
    requires { length field.now ≤ 11 }
    ensures { result ≡ number_in field.now }
{
    written(unblanked(field))
}

// The field from the first byte on that is no blank.
fn unblanked(field: &[u8]) -> &[u8]
    ensures value { result.now ≡ unblanked field.now }
    ensures bound { length result.now ≤ length field.now }
{
    let mut rest = field;
    while let [b' ', more @ ..] = rest {
        rest = more;
    }
    rest
}

// The call that the letters ask for, with its numbers; none where a field isn't what is due in it.
fn call(head: Head, line: &[u8; COMMAND_LENGTH]) -> Option<Call>
    ensures { result ≡ call_of head line.now }
{
    let first = &line[4..15];
    let second = &line[15..26];
    let third = &line[26..37];
    match head {
        Head::Open => Some(Call::Open {
            low: number(first)?,
            high: number(second)?,
            deviation: number(third)?,
        }),
        Head::Enter(side, kind, rest) => Some(Call::Enter(Entry {
            account: number(first)?,
            side,
            kind,
            rest,
            price: number(second)?,
            lots: number(third)?,
        })),
        Head::Withdraw => {
            if !is_blank(third) {
                return None;
            }
            Some(Call::Withdraw {
                account: number(first)?,
                number: number(second)?,
            })
        }
        Head::Reduce => Some(Call::Reduce {
            account: number(first)?,
            number: number(second)?,
            lots: number(third)?,
        }),
        Head::Suspend => is_blank(&line[4..37]).then_some(Call::Suspend),
        Head::Resume => is_blank(&line[4..37]).then_some(Call::Resume),
    }
}

// The call of a command line, which comes without its byte 10. Each call has one line.
pub fn read(line: &[u8]) -> Result<Call, Refusal>
    ensures value { result ≡ read_command line.now }
    ensures one_line_each { OneLineEach }
{
    let line = line.as_array().ok_or(Refusal::CommandLength)?;
    let head = letters(line).ok_or(Refusal::CommandLetter)?;
    call(head, line).ok_or(Refusal::CommandNumber)
}
