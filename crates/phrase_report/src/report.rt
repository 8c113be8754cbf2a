// What is said of a phrase text.
ghost use Rattle.page.specs.PhraseText.{text_phrases};
ghost use Rattle.page.specs.Phrases.{phrases};
ghost use Rattle.phrase_report.specs.Report.{entry, fault_report, first_entries, report};
ghost use Rattle.std.specs.Io.KnownBytes.{Appends};
ghost use Rattle.std.specs.Prelude.{◌≡◌, IfOk, OnOk, is_ok};

use dealing::reply::{OWNERS, owner_number};
use page::english::english;
use page::table::PhraseTable;
use page::table::text::TextFault;
use std::io;
use std::io::Write;

// A line with the number that owns a place, and the phrase there. None where no place is.
fn entry<W: Write>(out: &mut W, place: usize, table: &PhraseTable) -> io::Result<()>
    ensures { OnOk result
        (Appends (W.contents out.old) (W.contents out.new) (entry (phrases table.now.rows) place)) }
{
    match (owner_number(place), table.phrase(place)) {
        (Some(number), Some(phrase)) => {
            write!(out, "{number:>4}  ")?;
            out.write_all(phrase)?;
            out.write_all(b"\n")
        }
        _ => Ok(()),
    }
}

// What is wrong, with the English phrases of the outcomes that it is about.
fn explain<W: Write>(out: &mut W, fault: TextFault) -> io::Result<()>
    ensures { OnOk result
        (Appends (W.contents out.old) (W.contents out.new) (fault_report fault)) }
{
    let table = english();
    match fault {
        TextFault::Unsound { line, .. } => {
            write!(out, "{fault}\n")?;
            entry(out, line.saturating_sub(1), &table)
        }
        TextFault::Shared { first, second } => {
            out.write_all(b"two outcomes share one phrase\n")?;
            entry(out, first, &table)?;
            entry(out, second, &table)
        }
    }
}

// The lines of all places.
#[tactic(auto, unfolding(crate::specs::Report::first_entries))]
fn all_entries<W: Write>(out: &mut W, table: &PhraseTable) -> io::Result<()>
    ensures { OnOk result (Appends (W.contents out.old) (W.contents out.new)
        (first_entries (phrases table.now.rows) 28)) }
{
    for place in 0..OWNERS {
        entry(out, place, table)?;
    }
    Ok(())
}

/// Prints the phrases that the text sets, each beside the number that owns it, or else what is wrong
/// with the text and the English phrases that it concerns. Tells whether the text sets a table.
///
/// docs/PAGE.md, section 3, says what sets one. An error is the writer's; how much of the report it
/// has taken by then is not told.
pub fn show<W: Write>(out: &mut W, text: &[u8]) -> io::Result<bool>
    ensures sound { IfOk result (λ sound. sound ≡ is_ok (text_phrases text.now)) }
    ensures printed { OnOk result (Appends (W.contents out.old) (W.contents out.new)
        (report (text_phrases text.now))) }
{
    match PhraseTable::from_text(text) {
        Ok(table) => {
            all_entries(out, &table)?;
            Ok(true)
        }
        Err(fault) => {
            explain(out, fault)?;
            Ok(false)
        }
    }
}
