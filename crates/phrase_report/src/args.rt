// What the program's arguments ask for.
ghost use Rattle.phrase_report.specs.Args.{ReadAs, args_error_text, words};
ghost use Rattle.std.specs.Prelude.{Some};

use std::error::Error;
use std::fmt;

/// What the arguments ask for.
#[derive(Clone, Copy, PartialEq, Eq, Debug)]
pub enum Asked<'a> {
    /// The help.
    Help,
    /// A report on the text that standard input gives.
    Input,
    /// A report on the text of the file with this name.
    File(&'a str),
}

/// Why arguments ask for nothing.
#[derive(Clone, Copy, PartialEq, Eq, Debug)]
pub enum ArgsError {
    /// The only argument begins with `-`, and is not `--help`.
    NoSuchOption,
    /// There is more than one argument.
    TooMany,
}

impl fmt::Display for ArgsError {
    ghost output = { λ error. Some (args_error_text error) };

    fn fmt<W: fmt::Write>(&self, f: &mut fmt::Formatter<W>) -> fmt::Result {
        f.write_str(match self {
            ArgsError::NoSuchOption => "no such option, see phrase_check --help",
            ArgsError::TooMany => "more than one argument, see phrase_check --help",
        })
    }
}

impl Error for ArgsError {}

/// Reads the arguments that follow the program's name: none ask for standard input, `--help` for the
/// help, and any other one for the file of that name, unless it begins with `-`.
///
/// A file whose name begins so is named by a path, as `./-names`.
pub fn read_args(args: &[String]) -> Result<Asked<'_>, ArgsError>
    ensures { ReadAs (words args.now) result }
{
    match args {
        [] => Ok(Asked::Input),
        [word] if word.as_str() == "--help" => Ok(Asked::Help),
        [word] if word.as_bytes().first() == Some(&b'-') => Err(ArgsError::NoSuchOption),
        [word] => Ok(Asked::File(word.as_str())),
        _ => Err(ArgsError::TooMany),
    }
}
