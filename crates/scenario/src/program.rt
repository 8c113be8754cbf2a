//! What the program does.
ghost use Rattle.scenario.specs.Options.{ReadAs};

use crate::rehearse::rehearse;
use anyhow::anyhow;
use std::alloc::Global;
use std::env::Env;
use std::fs::Files;
use std::io::{BufReader, BufWriter, Input, Print, Read, Write};
use std::{env, fs, io};

/// What `--help` prints: what a scenario is, its lines, and one example.
pub const HELP: &str = "\
rehearsal FILE..   rehearses scenarios, in their order; with no FILE the
                   scenario is standard input

A scenario has the settings of a house in TOML, a line ---, and lines in
words. Each line is printed again, with ` = ` and its answer behind it.

  1 open LOW HIGH DEVIATION        1 enter ACCOUNT B|S L|M Q|T|F PRICE LOTS
  1 withdraw ACCOUNT NUMBER        1 reduce ACCOUNT NUMBER LOTS
  1 suspend                        1 resume
  times N CALL           makes one of these calls N times; shows the last reply
  account ACCOUNT SETTING          adds an account with its limit or deposit
  firm FIRM CAP                    sets the cap of a firm in the top layer
  show book 1    show trades 1    show market 1    show lines

  B buy, S sell; L limited, M market with price 0; Q the rest joins the queue,
  T the rest is taken off, F all lots trade or the entry is refused
  # at the beginning of a line makes it a comment; an empty line is passed over

A refusal is shown as its number, 14 with the centre's cause and depth; an
outcome with the order's number and its lots. An example:

  [instrument.1]
  rule = \"rate\"
  [centre]
  kind = \"position\"
  accounts = { 101 = 50 }
  ---
  1 open 1 100000 50
  1 enter 101 S L Q 7000 10

prints

  1 open 1 100000 50 = 60
  1 enter 101 S L Q 7000 10 = 51 no=1 traded=0 resting=10 off=0
";

/// What the arguments ask for.
#[derive(Clone, Copy)]
pub enum Task<'a> {
    /// The help.
    Help,
    /// The scenario of standard input.
    Input,
    /// The scenarios of these files.
    Files(&'a [String]),
}

/// Reads the arguments that follow the program's name: none, `--help` alone, or the names of files.
pub fn read_args(args: &[String]) -> Task<'_>
    ensures { ReadAs args.now result }
{
    match args {
        [] => Task::Input,
        [word] => {
            if word.as_str() == "--help" {
                Task::Help
            } else {
                Task::Files(args)
            }
        }
        _ => Task::Files(args),
    }
}

/// Rehearses a scenario, and names it where it ends before its last line.
fn rehearse_named<W: Write>(
    heap: Global,
    name: &str,
    text: &[u8],
    out: &mut W,
) -> anyhow::Result<()> {
    rehearse(heap, text, out).map_err(|error| anyhow!("{name}, {error}"))
}

/// Rehearses the scenario of a file.
pub fn rehearse_file<R: Files + AllocGlobal, W: Write>(
    rt: &R,
    name: &str,
    out: &mut W,
) -> anyhow::Result<()> {
    let text = match fs::read(rt, name) {
        Ok(text) => text,
        Err(error) => return Err(anyhow!("{name}: {error}")),
    };
    rehearse_named(rt.alloc(), name, text.as_slice(), out)
}

/// Does what these arguments ask for (`read_args`), with this input and output: prints the help, or rehearses the scenarios
/// of files, one after another, or that of the input.
///
/// An error names the file and the line where a scenario ends before its last line, and says what was expected there; no
/// later file is read then. Other errors are those of a file, a read, a write or want of memory.
pub fn run_with<R: Files + AllocGlobal, I: Read, O: Write>(
    rt: &R,
    args: &[String],
    input: &mut I,
    output: &mut O,
) -> anyhow::Result<()> {
    let done = match read_args(args) {
        Task::Help => output
            .write_all(HELP.as_bytes())
            .map_err(anyhow::Error::from),
        Task::Input => {
            let heap = rt.alloc();
            let mut text = Vec::new(heap);
            input.read_to_end(&mut text)?;
            rehearse_named(heap, "standard input", text.as_slice(), output)
        }
        Task::Files(files) => rehearse_files(rt, files, output),
    };
    output.flush()?;
    done
}

/// The program: does what its arguments ask for (`run_with`) over standard input and output. An error gives status 1.
pub fn run<R: Env + Files + Input + Print + AllocGlobal>(rt: &R) -> anyhow::Result<()> {
    let heap = rt.alloc();
    let args: Vec<String> = env::args(rt)?.skip(1).collect(heap)?;
    let mut input = BufReader::new(heap, rt.reader())?;
    let mut output = BufWriter::new(heap, io::writer(rt))?;
    run_with(rt, args.as_slice(), &mut input, &mut output)
}

fn rehearse_files<R: Files + AllocGlobal, W: Write>(
    rt: &R,
    files: &[String],
    out: &mut W,
) -> anyhow::Result<()> {
    for file in files {
        rehearse_file(rt, file.as_str(), out)?;
    }
    Ok(())
}
