// The ordered row: items of any kind kept from first to last under a standing order, written once.
#![tactic(auto)]

ghost use Rattle.std.specs.Prelude.{◌≡◌, ◌-◌, ◌<◌, ◌≤◌, Bool, true, false, not, List, [], ◌∷◌, ◌++◌, length, take, ℤ, ◌≢◌, nat_lt};
ghost use Rattle.ordered.specs.Row.{Found, Lacks, at_key, in_order, place, to_end};
ghost use Rattle.std.specs.List.{insert};

mod kept;
pub mod row;

/// A standing order over items of the type T: which of two comes first in a row (docs/FLOOR.md, section 3). The
/// implementor is the comparator, so that an order with settings of its own can be one.
pub trait Standing<T> {
    /// What tells items apart.
    ghost key: { T → ℤ };

    /// Whether the first item stands before the second.
    ghost stands: { Self → T → T → Bool };

    fn before(&self, a: &T, b: &T) -> bool
        ensures { result ≡ stands self.now a.now b.now };

    fn key_of(&self, item: &T) -> i64
        ensures { result ≡ key item.now };

    /// An item does not stand before itself.
    ghost irreflexive: { (s : Self) (x : T) → stands s x x ≡ false };

    /// Standing before carries on: who stands before an item stands before whatever that item stands before.
    ghost transitive: { (s : Self) (x y z : T) → stands s x y ≡ true → stands s y z ≡ true → stands s x z ≡ true };

    /// Two items that differ in their keys are always put one before the other, and never each before the other.
    ghost decided: { (s : Self) (x y : T) → (key x ≢ key y) → stands s x y ≡ not (stands s y x) };
}

// The place where an item goes: behind the leading items of the row that stand before it.
fn position<T, S: Standing<T>>(by: &S, row: &[T], item: &T) -> usize
    ensures place { result ≡ place (S.Standing.stands by.now) row.now item.now }
    ensures within { result ≤ length row.now }
{
    for (i, other) in row.iter().enumerate() {
        if !by.before(other, item) {
            return i;
        }
    }
    row.len()
}

/// The place of the first item with a key, or none.
pub fn find<T, S: Standing<T>>(by: &S, row: &[T], wanted: i64) -> Option<usize>
    ensures { Found S.Standing.key row.now wanted result }
{
    row.iter().position(|item| by.key_of(item) == wanted)
}

/// A copy of the first item with a key, or none.
pub fn lookup<T: Copy, S: Standing<T>>(by: &S, row: &[T], wanted: i64) -> Option<T>
    ensures { result ≡ at_key S.Standing.key row.now wanted }
{
    Some(row[find(by, row, wanted)?])
}

// The place where the last item goes among the others.
fn place_of_last<T, S: Standing<T>>(by: &S, row: &[T]) -> usize
    ensures place { (xs : List T) (x : T) → row.now ≡ xs ++ x ∷ [] → result ≡ place (S.Standing.stands by.now) xs x }
    ensures within { result ≤ length row.now - 1 }
    ensures ordered { (xs : List T) (x : T) → row.now ≡ xs ++ x ∷ [] → in_order (S.Standing.stands by.now) xs ≡ true → Lacks S.Standing.key xs (S.Standing.key x) (length xs) → in_order (S.Standing.stands by.now) (insert xs result x) ≡ true }
{
    if row.is_empty() {
        return 0;
    }
    let last = row.len() - 1;
    position(by, &row[0..last], &row[last])
}

// Moves the last item up to a place.
fn raise_last<T>(row: &mut [T], at: usize)
    requires { at ≤ length row.old - 1 }
    ensures after { (xs : List T) (x : T) → row.old ≡ xs ++ x ∷ [] → row.new ≡ insert xs at x }
    ensures none { row.old ≡ [] → row.new ≡ [] }
{
    if !row.is_empty() {
        row[at..].rotate_right(1);
    }
}

/// Moves the last item of the row to its place among the others, and answers the place.
pub fn insert<T, S: Standing<T>>(by: &S, row: &mut [T]) -> usize
    ensures place { (xs : List T) (x : T) → row.old ≡ xs ++ x ∷ [] → result ≡ place (S.Standing.stands by.now) xs x }
    ensures after { (xs : List T) (x : T) → row.old ≡ xs ++ x ∷ [] → row.new ≡ insert xs result x }
    ensures none { row.old ≡ [] → (result ≡ 0) × (row.new ≡ []) }
    ensures ordered { (xs : List T) (x : T) → row.old ≡ xs ++ x ∷ [] → in_order (S.Standing.stands by.now) xs ≡ true → Lacks S.Standing.key xs (S.Standing.key x) (length xs) → in_order (S.Standing.stands by.now) row.new ≡ true }
{
    let at = place_of_last(by, row);
    raise_last(row, at);
    at
}

// Moves the item at a place behind all others, which keep their places among themselves.
fn sink<T>(row: &mut [T], at: usize)
    requires { at < length row.old }
    ensures after { row.new ≡ to_end row.old at }
    ensures ordered { (before : T → T → Bool) → in_order before row.old ≡ true → in_order before (take (length row.old - 1) row.new) ≡ true }
{
    row[at..].rotate_left(1);
}

/// Moves the item at a place behind all others, which stay in order; false where there is none, and nothing moves.
pub fn remove<T>(row: &mut [T], at: usize) -> bool
    ensures test { result ≡ nat_lt at (length row.old) }
    ensures after { result ≡ true → row.new ≡ to_end row.old at }
    ensures ordered { result ≡ true → (before : T → T → Bool) → in_order before row.old ≡ true → in_order before (take (length row.old - 1) row.new) ≡ true }
    ensures same { result ≡ false → row.new ≡ row.old }
{
    if at >= row.len() {
        return false;
    }
    sink(row, at);
    true
}

#[cfg(test)]
mod tests;
