//! What the program does.
use crate::default_house::open_house;
use crate::options::{Asked, HELP, read_args};
use crate::{phrases, settings};
use anyhow::anyhow;
use clearing::centre::Centre;
use desk::desk::Desk;
use house::read::House;
use line_service::error::ServeError;
use market::market::Market;
use market::rule::QueueRule;
use page::english::english;
use page::table::PhraseTable;
use std::env::Env;
use std::fs::Files;
use std::io::{BufRead, BufReader, BufWriter, Input, Print, Write};
use std::{env, io};

// Why a session ends before its input does.
fn told(error: ServeError) -> anyhow::Error {
    match error {
        ServeError::TooManyLines => anyhow!(
            "after line 9999999 the page has no room for a number: the session stops"
        ),
        other => anyhow::Error::from(other),
    }
}

// Answers all lines of the input at the desk of a market. However that ends, the market is closed.
fn serve<Q: QueueRule + Drop, C: Centre + Drop, I: BufRead, O: Write>(
    market: Market<Q, C>,
    table: PhraseTable,
    input: &mut I,
    output: &mut O,
) -> anyhow::Result<()> {
    let mut desk = Desk::new(market, table);
    let served = desk.serve(input, output);
    let _centre = desk.into_market().close();
    served.map_err(told)
}

/// Does what these arguments ask for (`read_args`), with this input and output: prints the help, shows the settings of a
/// house, or answers the command lines of the input (`Desk::serve`). The market is that of a house whose settings a file
/// gives, or else that of `open_house`; the phrases are those of a file, or else the English ones.
///
/// An error says what went wrong: the arguments, a file, a read or a write, want of memory, or that there is a line after
/// number 9,999,999.
pub fn run_with<R: Files + AllocGlobal, I: BufRead, O: Write>(
    rt: &R,
    args: &[String],
    input: &mut I,
    output: &mut O,
) -> anyhow::Result<()> {
    match read_args(args)? {
        Asked::Help => {
            output.write_all(HELP.as_bytes())?;
            output.flush()?;
            Ok(())
        }
        Asked::Check(file) => {
            let house = settings::load(rt, file)?;
            write!(output, "{house}")?;
            output.flush()?;
            Ok(())
        }
        Asked::Session { house, phrases } => {
            let table = match phrases {
                Some(file) => phrases::load(rt, file)?,
                None => english(),
            };
            match house {
                Some(file) => {
                    let House { rule, centre } = settings::load(rt, file)?;
                    serve(Market::new(rt.alloc(), rule, centre)?, table, input, output)
                }
                None => serve(open_house(rt.alloc())?, table, input, output),
            }
        }
    }
}

/// The program: does what its arguments ask for (`run_with`) over standard input and output. An error gives status 1.
pub fn run<R: Env + Files + Input + Print + AllocGlobal>(rt: &R) -> anyhow::Result<()> {
    let heap = rt.alloc();
    let args: Vec<String> = env::args(rt)?.skip(1).collect(heap)?;
    let mut input = BufReader::new(heap, rt.reader())?;
    let mut output = BufWriter::new(heap, io::writer(rt))?;
    run_with(rt, args.as_slice(), &mut input, &mut output)
}
