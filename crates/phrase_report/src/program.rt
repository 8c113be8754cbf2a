// The program that a house's translator runs.
ghost use Rattle.page.specs.PhraseText.{text_phrases};
ghost use Rattle.std.specs.Prelude.{IsOk, OnOk};

use crate::args::{Asked, read_args};
use crate::report::show;
use anyhow::{Context, anyhow};
use std::env::Env;
use std::fs::Files;
use std::io::{Input, Print, Read, Write};
use std::{env, fs, io};

/// What `--help` prints.
pub const HELP: &str = "\
phrase_check reads a phrase text and says whether it sets a table.

  phrase_check          checks the text on standard input
  phrase_check FILE     checks the text in FILE (./FILE where it begins with -)
  phrase_check --help   shows this

A phrase text has 28 lines, each of which ends in byte 10, the last one too.
The phrases of refusals 1 to 14 and 18 to 20 come first, then those of
outcomes 50 to 60. A phrase has 1 to 40 bytes from 32 up; its first and its
last byte are no spaces. No two phrases are equal.

A sound text is printed with the number of each phrase's outcome. Otherwise
the first wrong line is named, or the two outcomes that share one phrase, and
the status is 1. It is 1 too where the arguments are none of these, or where
the text cannot be read.
";

// Reports on a text. All is well only where it sets a table.
fn judge<W: Write>(out: &mut W, text: &[u8]) -> anyhow::Result<()>
    ensures { OnOk result (IsOk (text_phrases text.now)) }
{
    if show(out, text)? {
        Ok(())
    } else {
        Err(anyhow!("the text sets no table"))
    }
}

/// Does what these arguments ask for (`read_args`), with this input and output: prints the help, or reports by `show` on the
/// text of a file or of the input.
///
/// An error says what went wrong: the arguments, the text that cannot be read with the system's reason, the output, or that
/// the text sets no table.
pub fn run_with<R: Files + Alloc, I: Read, O: Write>(
    rt: &R,
    args: &[String],
    input: &mut I,
    output: &mut O,
) -> anyhow::Result<()> {
    match read_args(args)? {
        Asked::Help => {
            output.write_all(HELP.as_bytes())?;
            Ok(())
        }
        Asked::Input => {
            let mut text = Vec::new(rt.alloc());
            input
                .read_to_end(&mut text)
                .context("reading standard input")?;
            judge(output, text.as_slice())
        }
        Asked::File(name) => {
            let text = fs::read(rt, name).context(format_args!("reading {name}"))?;
            judge(output, text.as_slice())
        }
    }
}

/// The program: does what its arguments ask for (`run_with`), with standard input and output. An error gives status 1.
pub fn run<R: Env + Files + Input + Print + AllocGlobal>(rt: &R) -> anyhow::Result<()> {
    let args: Vec<String> = env::args(rt)?.skip(1).collect(rt.alloc())?;
    run_with(rt, args.as_slice(), &mut rt.reader(), &mut io::writer(rt))
}
