//! Runs of the programs `session`, `phrase_check` and `rehearsal`, many in one, stored. In the input each begins at a `$`, which is not
//! written otherwise: the rest of its line has the program and its arguments, parted by blanks, and what follows up to the
//! next `$` stands on the program's standard input. The output has that line, what the program prints, and the error that it
//! ends with.
#![tactic(auto)]

use anyhow::anyhow;
use std::io;
use std::io::{BufRead, BufReader, BufWriter, Read, Write};

// A run, from the text behind its `$`. Each program gets what it makes of standard input and output itself.
fn run_one(rt: &HostRuntime, mut text: &[u8]) -> anyhow::Result<()> {
    let heap = rt.alloc();
    let mut line = Vec::new(heap);
    text.read_until(b'\n', &mut line)?;
    let line = String::from_utf8(line)?;
    let mut words = Vec::new(heap);
    for word in line.split_whitespace() {
        words.push(String::from_str(heap, word)?)?;
    }
    let mut out = io::writer(rt);
    write!(out, "${line}")?;
    let ended = match words.split_first() {
        Some((word, args)) if word.as_str() == "session" => {
            let mut input = BufReader::new(heap, text)?;
            let mut output = BufWriter::new(heap, io::writer(rt))?;
            floor_session::program::run_with(rt, args, &mut input, &mut output)
        }
        Some((word, args)) if word.as_str() == "phrase_check" => {
            phrase_report::program::run_with(rt, args, &mut text, &mut out)
        }
        Some((word, args)) if word.as_str() == "rehearsal" => {
            scenario::program::run_with(rt, args, &mut text, &mut out)
        }
        _ => Err(anyhow!("no such program")),
    };
    if let Err(error) = ended {
        write!(out, "Error: {error:?}\n")?;
    }
    Ok(())
}

fn run_all(rt: &HostRuntime) -> anyhow::Result<()> {
    let mut text = Vec::new(rt.alloc());
    rt.reader().read_to_end(&mut text)?;
    for run in text.split(|&byte| byte == b'$').skip(1) {
        run_one(rt, run)?;
    }
    Ok(())
}

fn main(rt: HostRuntime) -> anyhow::Result<()> {
    run_all(&rt)
}
