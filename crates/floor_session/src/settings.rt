// The settings of a house, from a file.
use anyhow::{Context, anyhow};
use house::read::{House, read_bytes};
use std::fs;
use std::fs::Files;

/// The house whose settings the text of a file has (docs/SETTINGS.md).
///
/// An error names the file, and the system's reason or the line and what was expected there.
pub fn load<R: Files + AllocGlobal>(rt: &R, file: &str) -> anyhow::Result<House> {
    let text = fs::read(rt, file).context(format_args!("reading {file}"))?;
    read_bytes(rt.alloc(), text.as_slice()).map_err(|error| anyhow!("{file}, {error}"))
}
