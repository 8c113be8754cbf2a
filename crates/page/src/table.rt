// A house's phrases, one for each reply that owns one. Two equal phrases cannot be in a table.
ghost use Rattle.std.specs.Prelude.{◌≡◌, ◌<◌, ◌≤◌, [], length, IfSome, MatchOption, slice_index_or};
ghost use Rattle.page.specs.Phrases.{filled, found_from, phrases, AllWide, Table};

use dealing::reply::OWNERS;

pub mod text;

// The columns of a phrase.
pub const WIDTH: usize = 40;

// Each row is a phrase with blanks up to its width: no phrase ends in a blank, so the row tells it.
#[derive(Clone, Copy)]
pub struct PhraseTable {
    rows: [[u8; WIDTH]; OWNERS],
    ghost wide: { AllWide rows },
    ghost table: { Table (phrases rows) },
}

impl PhraseTable {
    // The columns that a phrase fills on the page.
    pub(crate) fn row(&self, place: usize) -> &[u8; WIDTH]
        requires { place < 28 }
        ensures { result.now ≡ filled (slice_index_or (phrases self.now.rows) place []) }
    {
        &self.rows[place]
    }

    // Where the phrase stands that fills these columns.
    pub(crate) fn find(&self, columns: &[u8]) -> Option<usize>
        ensures value { result ≡ found_from 0 columns.now (phrases self.now.rows) }
        ensures bound { IfSome result (λ place. place < 28) }
    {
        self.rows.iter().position(|row| row.as_slice() == columns)
    }

    // The phrase of the reply at a place, without the blanks after it.
    pub fn phrase(&self, place: usize) -> Option<&[u8]>
        ensures { MatchOption result (28 ≤ place) (λ x. (place < 28) × (x.now ≡ slice_index_or (phrases self.now.rows) place [])) }
    {
        let mut phrase = self.rows.get(place)?.as_slice();
        while let [rest @ .., b' '] = phrase {
            phrase = rest;
        }
        Some(phrase)
    }
}
