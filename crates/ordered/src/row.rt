// Rows with room of their own.
ghost use Rattle.std.specs.Prelude.{◌≡◌, ◌+◌, ◌<◌, ◌≤◌, ◌↔◌, Bool, true, [], ◌∷◌, ◌++◌, length, IfErr, IfOk, IfSome, IsSome, IsTrue, OnOk, slice_index_or, slice_set};
ghost use Rattle.std.specs.Borrow.{LendsIf, sem};
ghost use Rattle.ordered.specs.contracts.row.Row.{the_row};
ghost use Rattle.ordered.specs.Kept.{AddedWithin, TakenOut};
ghost use Rattle.ordered.specs.Row.{Lacks, in_order};

use crate::Standing;
use crate::kept::{put, take};
use std::alloc::{AllocError, Global};
use std::marker::Model;

/// A list of at most N items, with room for exactly N from the start: to add one asks for no memory.
#[derive(Drop)]
pub struct Row<T, const N: usize> {
    kept: Vec<T>,
}

// Clauses see the items from first to last.
impl<T, const N: usize> Model for Row<T, N> {
    ghost use Rattle.std.specs.Prelude.{◌≡◌, ◌≤◌, List, vec_len, vec_capacity};

    ghost Value = { List T };

    ghost view = { λ r. r.kept.items };

    ghost invariant = { λ r. (vec_len r.kept ≤ N) × (vec_capacity r.kept ≡ N) };
}

impl<T, const N: usize> Row<T, N> {
    /// An empty row. This is the only time that it asks for memory.
    pub fn new(heap: Global) -> Result<Row<T, N>, AllocError>
        ensures { IfOk result (λ r. r ≡ []) }
    {
        let kept = Vec::with_capacity(heap, N)?;
        Ok(Row { kept })
    }

    /// The items, from first to last: the end of a row whose items may not simply be let go.
    pub fn into_vec(self) -> Vec<T>
        ensures { result.items ≡ self }
    {
        let Row { kept } = self;
        kept
    }

    pub fn len(&self) -> usize
        ensures value { result ≡ length self.now }
        ensures few { length self.now ≤ N }
    {
        self.kept.len()
    }

    pub fn is_full(&self) -> bool
        ensures full { IsTrue result ↔ (length self.now ≡ N) }
        ensures few { length self.now ≤ N }
    {
        self.len() == N
    }

    pub fn as_slice(&self) -> &[T]
        ensures items { result.now ≡ self.now }
        ensures few { length self.now ≤ N }
    {
        self.kept.as_slice()
    }

    /// Puts an item behind the others. A full row hands it back, and stays as it was.
    pub fn push(&mut self, item: T) -> Result<(), T>
        ensures ok { OnOk result ((length self.old < N) × (self.new ≡ self.old ++ item ∷ [])) }
        ensures full { IfErr result (λ back. (back ≡ item) × (length self.old ≡ N) × (self.new ≡ self.old)) }
    {
        if self.is_full() {
            return Err(item);
        }
        self.kept.push_reserved(item);
        Ok(())
    }

    /// Puts an item into its place, which is answered; a full row hands it back.
    pub fn add<S: Standing<T>>(&mut self, by: &S, item: T) -> Result<usize, T>
        ensures added { AddedWithin N (S.Standing.stands by.now) self.old item self.new result }
        ensures ordered { in_order (S.Standing.stands by.now) self.old ≡ true → Lacks S.Standing.key self.old (S.Standing.key item) (length self.old) → in_order (S.Standing.stands by.now) self.new ≡ true }
    {
        if self.is_full() {
            return Err(item);
        }
        Ok(put(by, &mut self.kept, item))
    }

    /// Takes the item at a place out of the row; none where the place is past its end.
    pub fn take(&mut self, at: usize) -> Option<T>
        ensures taken { TakenOut self.old at self.new result }
        ensures ordered { (before : T → T → Bool) → in_order before self.old ≡ true → in_order before self.new ≡ true }
    {
        take(&mut self.kept, at)
    }

    /// Lends the item at a place; none where the place is past the end.
    pub fn item_mut(&mut self, at: usize) -> Option<&mut T>
        ensures* lends { sem 𝓛 (LendsIf (the_row T.row N.row) T.row self.entry result (slice_set self.old at) self.old) }
        ensures there { IsSome result ↔ (at < length self.old) }
        ensures value { IfSome result (λ x. x.now ≡ slice_index_or self.old at x.now) }
    {
        self.kept.get_mut(at)
    }
}
