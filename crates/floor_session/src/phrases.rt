// The phrase table of a house, from a file.
ghost use Rattle.page.specs.PhraseText.{text_phrases};
ghost use Rattle.page.specs.Phrases.{phrases};
ghost use Rattle.std.specs.Prelude.{◌≡◌, Err, MatchResult, Ok};

use anyhow::Context;
use page::table::PhraseTable;
use page::table::text::TextFault;
use std::fs;
use std::fs::Files;

/// The table that a phrase text sets, or the text's first flaw (docs/PAGE.md, section 3).
pub fn table_of(text: &[u8]) -> Result<PhraseTable, TextFault>
    ensures { MatchResult result (λ table. text_phrases text.now ≡ Ok (phrases table.rows))
        (λ fault. text_phrases text.now ≡ Err fault) }
{
    PhraseTable::from_text(text)
}

/// The table that the text of a file sets.
///
/// An error names the file, and the system's reason or the text's first flaw as its cause.
pub fn load<R: Files + Alloc>(rt: &R, file: &str) -> anyhow::Result<PhraseTable> {
    let text = fs::read(rt, file).context(format_args!("reading {file}"))?;
    table_of(text.as_slice()).context(format_args!("{file} sets no phrase table"))
}
