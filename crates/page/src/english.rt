// The phrases in English.
ghost use Rattle.page.specs.English.{english_phrases};
ghost use Rattle.page.specs.Phrases.{phrases};
ghost use Rattle.std.specs.Prelude.{◌≡◌};

use crate::table::PhraseTable;

// One line for each reply that owns a phrase, in the sequence of their numbers.
const TEXT: &[u8] = b"\
Not in this period
Lots out of range
Market order: wrong type or price
Price or opening terms out of range
No order numbers left
Refused: own order stands first
Refused: cannot fill in full
Trade register full
Queue full
No such order
Order of another account
Reduction out of range
Clearing centre out of step
Clearing centre says no
Command not 37 columns
Command letter not known
Command number malformed
Filled
Resting in full
Part traded, rest resting
Nothing traded, all taken off
Part traded, rest off at the price limit
Part traded, rest off at own order
Withdrawn
Reduced
Market suspended
Market resumed
Market opened
";

#[tactic(auto, unfolding(crate::specs::PhraseText::all_lines, crate::specs::English::english_phrases))]
pub fn english() -> PhraseTable
    ensures { phrases result.rows ≡ english_phrases }
{
    PhraseTable::from_text(TEXT).unwrap()
}
