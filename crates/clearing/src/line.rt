// What a centre keeps of an account: lots held and lots settled, on each side.
ghost use Rattle.std.specs.Prelude.{◌≡◌, ◌+◌, ◌^◌, ◌<◌, ◌≤◌, true};
ghost use Rattle.clearing.specs.Line.{all_counts, empty, hold, in_range, on, release, settle, sound_line, with_side};

use crate::side::Side;

/// The counts of one side: held for orders that rest or are being entered, and settled by trades.
#[derive(Clone, Copy, PartialEq, Eq, Debug)]
pub struct Counts {
    pub held: u64,
    pub settled: u64,
}

impl Counts {
    /// Held and settled together. A sum of two counts fits, whatever they are.
    pub fn sum(&self) -> u128
        ensures value { result ≡ self.now.held + self.now.settled }
        ensures bound { result < 2 ^ 65 }
    {
        u128::from(self.held) + u128::from(self.settled)
    }
}

#[derive(Clone, Copy, PartialEq, Eq, Debug)]
pub struct Line {
    pub buy: Counts,
    pub sell: Counts,
}

impl Line {
    /// The line of an account with nothing held or settled.
    pub fn new() -> Line
        ensures { result ≡ empty }
    {
        let none = Counts {
            held: 0,
            settled: 0,
        };
        Line {
            buy: none,
            sell: none,
        }
    }

    pub fn on(&self, side: Side) -> Counts
        ensures { result ≡ on side self.now }
    {
        match side {
            Side::Buy => self.buy,
            Side::Sell => self.sell,
        }
    }

    /// All four counts together.
    pub fn total(&self) -> u128
        ensures value { result ≡ all_counts self.now }
        ensures bound { result < 2 ^ 66 }
    {
        self.buy.sum() + self.sell.sum()
    }

    // The line with other counts on one side.
    pub(crate) fn with_side(&self, side: Side, counts: Counts) -> Line
        ensures { result ≡ with_side side counts self.now }
    {
        match side {
            Side::Buy => Line {
                buy: counts,
                ..*self
            },
            Side::Sell => Line {
                sell: counts,
                ..*self
            },
        }
    }

    // Whether new lots are 1 to 1,000,000 and leave the side's sum within its maximum.
    pub(crate) fn has_room(&self, side: Side, lots: u64) -> bool
        ensures { result ≡ in_range side lots self.now }
    {
        (1..=1_000_000).contains(&lots) && self.on(side).sum() + u128::from(lots) <= 999_999_999
    }

    // Lots more are held.
    pub(crate) fn hold(&self, side: Side, lots: u64) -> Line
        requires { in_range side lots self.now ≡ true }
        ensures { result ≡ hold side lots self.now }
    {
        let mut counts = self.on(side);
        counts.held += lots;
        self.with_side(side, counts)
    }

    // Lots go from held to settled.
    pub(crate) fn settle(&self, side: Side, lots: u64) -> Line
        requires sound { sound_line self.now ≡ true }
        requires held { lots ≤ (on side self.now).held }
        ensures { result ≡ settle side lots self.now }
    {
        let mut counts = self.on(side);
        counts.held -= lots;
        counts.settled += lots;
        self.with_side(side, counts)
    }

    // Lots are no longer held.
    pub(crate) fn release(&self, side: Side, lots: u64) -> Line
        requires { lots ≤ (on side self.now).held }
        ensures { result ≡ release side lots self.now }
    {
        let mut counts = self.on(side);
        counts.held -= lots;
        self.with_side(side, counts)
    }
}
