// The periods of a market: it is opened once, and then trades or is suspended.
#[derive(Clone, Copy, PartialEq, Eq, Debug)]
pub enum Period {
    Unopened,
    Trading,
    Suspended,
}
