// What the program's arguments ask for.
ghost use Rattle.floor_session.specs.Options.{args_error_text, asked_by, meant, options_of, read_as, read_on, with_word, words};
ghost use Rattle.std.specs.Prelude.{◌≡◌, Some};
ghost use Rattle.std.specs.Result.{result_map_both};

use std::error::Error;
use std::fmt;

/// What `--help` prints: arguments, commands and answers.
pub const HELP: &str = "\
session [--house FILE] [--phrases FILE]   answers commands
session --house FILE --check              shows the settings of the house
session --help                            shows this

Each command line of standard input is answered by one printed line. The market
is that of the house whose settings are in FILE, or else of the house in the
program. The phrases are those of FILE, a text of 28 lines, or else English. The
options come in any order, and a FILE that begins with - is written ./-FILE.

A command has 37 columns. A number stands at the right end of its columns.
  1            2 to 4   5 to 15   16 to 26   27 to 37
  O open                low       high       deviation
  E enter      skt      account   price      lots
  W withdraw            account   number
  R reduce              account   number     lots
  H suspend, G resume
  s: B buy, S sell   k: L limited, M market with price 0
  t: Q the rest joins the queue, T the rest is taken off,
     F all lots trade or the entry is refused
The market is opened, and account 101 sells 10 lots at 7000:
O             1     100000         50
ESLQ        101       7000         10

An answer has 86 columns, and 0 for each number that its outcome has not.
   1 to 7   command line   13 to 14  depth          30 to 37  lots resting
   8 to 10  outcome        15 to 21  order number   38 to 45  lots taken off
  11 to 12  cause          22 to 29  lots traded    47 to 86  phrase

Outcomes of a command that is refused, and changes nothing:
   1 not in this period of the market     10 no resting order has the number
   2 lots are not 1 to 1000000            11 the order is another account's
   3 market entry with price, or to rest  12 takes no lot, or leaves none
   4 price or opening terms out of range  13 the centre holds less than rests
   5 no order number is left              14 the centre says no (see cause)
   6 own order reached before any trade   18 not 37 columns
   7 would not trade in full              19 a letter is not known
   8 no room for the trades               20 a number is malformed
   9 no room in the queue for the rest
Cause of 14: 1 no line, 2 lots out of range, 3 own rule, 4 firm cap. Depth: 0
at the bottom, one more at each layer, 99 at most.

Outcomes of a command that is accepted:
  50 all lots traded
  51 no lot traded, all lots rest
  52 some lots traded, the others rest
  53 no lot traded, all lots taken off
  54 some lots traded, the others taken off, no further order was eligible
  55 some lots traded, the others taken off, the account's own order was next
  56 withdrawn   57 reduced   58 suspended   59 resumed   60 opened
";

/// What the arguments ask for. Files are given by their names.
#[derive(Clone, Copy, PartialEq, Eq, Debug)]
pub enum Asked<'a> {
    /// The help.
    Help,
    /// A look at the house that the settings in this file set up.
    Check(&'a str),
    /// A session.
    Session {
        /// The file with the settings of the house, or none for the house of `open_house`.
        house: Option<&'a str>,
        /// The file with the phrases, or none for the English ones.
        phrases: Option<&'a str>,
    },
}

/// Why arguments ask for nothing.
#[derive(Clone, Copy, PartialEq, Eq, Debug)]
pub enum ArgsError<'a> {
    /// This word is no option, or it is `--help` among others.
    NotExpected(&'a str),
    /// This option stands there before.
    Twice(&'a str),
    /// No word follows this option, or one that begins with `-`.
    NoFile(&'a str),
    /// `--check` stands without `--house`.
    NothingToCheck,
    /// `--check` stands with `--phrases`, which it does not read.
    CheckWithPhrases,
}

impl fmt::Display for ArgsError<'_> {
    ghost output = { λ error. Some (args_error_text error) };

    fn fmt<W: fmt::Write>(&self, f: &mut fmt::Formatter<W>) -> fmt::Result {
        match self {
            ArgsError::NotExpected(word) => {
                write!(f, "argument not expected: {word}, see session --help")
            }
            ArgsError::Twice(option) => write!(f, "{option} is given twice, see session --help"),
            ArgsError::NoFile(option) => write!(f, "{option} wants a file, see session --help"),
            ArgsError::NothingToCheck => {
                f.write_str("--check wants --house FILE, see session --help")
            }
            ArgsError::CheckWithPhrases => {
                f.write_str("--check goes without --phrases, see session --help")
            }
        }
    }
}

impl Error for ArgsError<'_> {}

// What the words so far have given.
#[derive(Clone, Copy, Default)]
struct Found<'a> {
    house: Option<&'a str>,
    phrases: Option<&'a str>,
    check: bool,
    // The option, `--house` or `--phrases`, whose file is due next.
    due: Option<&'a str>,
}

// With one more word.
fn with_word<'a>(found: Found<'a>, word: &'a str) -> Result<Found<'a>, ArgsError<'a>>
    ensures { result_map_both options_of args_error_text result
        ≡ with_word (options_of found.entry) word.now }
{
    match (found.due, word) {
        (Some(option), file) if file.as_bytes().first() == Some(&b'-') => {
            Err(ArgsError::NoFile(option))
        }
        (Some("--house"), file) => Ok(Found {
            house: Some(file),
            due: None,
            ..found
        }),
        (Some(_), file) => Ok(Found {
            phrases: Some(file),
            due: None,
            ..found
        }),
        (None, "--house") if found.house.is_none() => Ok(Found {
            due: Some(word),
            ..found
        }),
        (None, "--phrases") if found.phrases.is_none() => Ok(Found {
            due: Some(word),
            ..found
        }),
        (None, "--check") if !found.check => Ok(Found {
            check: true,
            ..found
        }),
        (None, "--house" | "--phrases" | "--check") => Err(ArgsError::Twice(word)),
        (None, _) => Err(ArgsError::NotExpected(word)),
    }
}

// What all words ask for.
fn asked_by(found: Found<'_>) -> Result<Asked<'_>, ArgsError<'_>>
    ensures { meant result ≡ asked_by (options_of found.entry) }
{
    match found {
        Found {
            due: Some(option),
            ..
        } => Err(ArgsError::NoFile(option)),
        Found {
            check: false,
            house,
            phrases,
            ..
        } => Ok(Asked::Session { house, phrases }),
        Found { house: None, .. } => Err(ArgsError::NothingToCheck),
        Found {
            phrases: Some(_),
            ..
        } => Err(ArgsError::CheckWithPhrases),
        Found {
            house: Some(file),
            ..
        } => Ok(Asked::Check(file)),
    }
}

// What the words ask for, behind those that gave what was found.
#[tactic(auto, unfolding(crate::specs::Options::read_on))]
fn read_on<'a>(args: &'a [String], found: Found<'a>) -> Result<Asked<'a>, ArgsError<'a>>
    ensures { meant result ≡ read_on (words args.now) (options_of found.entry) }
{
    match args.split_first() {
        Some((word, rest)) => read_on(rest, with_word(found, word.as_str())?),
        None => asked_by(found),
    }
}

/// Reads the arguments that follow the program's name: `--help` alone; or in any order, and each at most once,
/// `--house FILE`, `--phrases FILE`, and `--check`, which wants a house and takes no phrases. All others are an error, the
/// first that is met from left to right. A file whose name begins with `-` is named by a path, as `./-house`.
pub fn read_args(args: &[String]) -> Result<Asked<'_>, ArgsError<'_>>
    ensures { meant result ≡ read_as (words args.now) }
{
    match args {
        [word] if word.as_str() == "--help" => Ok(Asked::Help),
        _ => read_on(args, Found::default()),
    }
}
