// A row that its owner keeps in a `Vec` with room reserved: an item comes or goes, and nothing is allocated.
ghost use Rattle.std.specs.Prelude.{◌≡◌, ◌<◌, Bool, true, length, Ok, vec_len, vec_capacity};
ghost use Rattle.ordered.specs.Kept.{Added, Taken};
ghost use Rattle.ordered.specs.Row.{Lacks, in_order};

use crate::{Standing, insert, remove};

// Puts an item into its place, for which there is room.
pub(crate) fn put<T, S: Standing<T>>(by: &S, row: &mut Vec<T>, item: T) -> usize
    requires { vec_len row.old < vec_capacity row.old }
    ensures added { Added (S.Standing.stands by.now) row.old item row.new (Ok result) }
    ensures ordered { in_order (S.Standing.stands by.now) row.old.items ≡ true → Lacks S.Standing.key row.old.items (S.Standing.key item) (length row.old.items) → in_order (S.Standing.stands by.now) row.new.items ≡ true }
{
    row.push_reserved(item);
    insert(by, row.as_mut_slice())
}

// Takes the item at a place out of the row; none where the place is past its end.
pub(crate) fn take<T>(row: &mut Vec<T>, at: usize) -> Option<T>
    ensures taken { Taken row.old at row.new result }
    ensures ordered { (before : T → T → Bool) → in_order before row.old.items ≡ true → in_order before row.new.items ≡ true }
{
    if at >= row.len() {
        return None;
    }
    let _ = remove(row.as_mut_slice(), at);
    row.pop()
}
