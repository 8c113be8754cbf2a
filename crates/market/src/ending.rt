// How the walk of an entry ends.
#[derive(Clone, Copy, PartialEq, Eq, Debug)]
pub enum Ending {
    // The entry has no lots left.
    Filled,
    // The queue is over, or its next order is not eligible.
    Short,
    // The next order is of the entry's own account.
    Own,
}
