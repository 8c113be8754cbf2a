// What every clearing centre is: one line of four counts for each account, a rule of its own, and five calls.
ghost use Rattle.std.specs.Prelude.{◌≡◌, ℕ, ◌≤◌, ℤ};
ghost use Rattle.clearing.specs.Centre.{Denies, GivenBack, Lines, Own, Reserved, Settled, Sound, answered, verdict};
ghost use Rattle.clearing.specs.declared.side.Side.{Side};

use crate::cause::Denial;
use crate::grant::Grant;
use crate::line::Line;
use crate::side::Side;

/// A grant that was not settled, with the reason.
pub struct Unsettled {
    pub grant: Grant,
    pub denial: Denial,
}

/// What the market is proved against: it knows of a centre what stands here and nothing else. The rules are on
/// docs/CENTRE.md.
pub trait Centre {
    /// The meaning: the line of each account that has one.
    ghost lines: { Self → Lines };

    /// The own rule of the bottom and that of each layer over it, as a function of any lines.
    ghost own: { Self → Own };

    /// How many layers are below, or 99 where there are more.
    ghost depth: { Self → ℕ };

    /// Whether all that a house set (margin, deposits or limits, firms, members, caps, and so on, at every layer) is the
    /// same in two states of the centre.
    ghost same_settings: { Self → Self → Type 0 };

    /// The depth of the layer: 0 at the bottom, and 99 from the 99th layer on.
    fn depth(&self) -> u8
        ensures { result ≡ depth self.now };

    /// Whether the lots would be reserved, or the first cause why not.
    fn question(&self, account: i64, side: Side, lots: u64) -> Result<(), Denial>
        ensures { result ≡ answered (verdict (own self.now) (lines self.now) account side lots) };

    /// Holds the lots for the account and hands out a grant for them, exactly where the question answers yes.
    fn reserve(&mut self, account: i64, side: Side, lots: u64) -> Result<Grant, Denial>
        ensures result { Reserved (own self.old) (lines self.old) account side lots (lines self.new) result }
        ensures settings { same_settings self.old self.new };

    /// Moves lots of the grant from held to settled. The lots that were not settled come back as a grant.
    fn settle(&mut self, grant: Grant, lots: u64) -> Result<Grant, Unsettled>
        ensures result { Settled (lines self.old) grant lots (lines self.new) result }
        ensures settings { same_settings self.old self.new };

    /// Spends the grant: its lots are no longer held.
    fn give_back(&mut self, grant: Grant) -> Result<(), Denial>
        ensures result { GivenBack (lines self.old) grant (lines self.new) result }
        ensures settings { same_settings self.old self.new };

    /// The line of an account, where it has one.
    fn line(&self, account: i64) -> Option<Line>
        ensures { result ≡ lines self.now account };

    /// Held plus settled on one side never passes 999,999,999.
    ghost sound: { (s : Self) (a : ℤ) → Sound (lines s a) };

    /// The own rule says no by cause 3 at depth 0, or by cause 4 at a depth from 1 to this layer's.
    ghost denies: { (s : Self) (l : Lines) (a : ℤ) (d : Side) (n : ℕ) → Denies (depth s) (own s l a d n) };

    ghost shallow: { (s : Self) → depth s ≤ 99 };

    /// Where no setting moved, the own rule says the same.
    ghost same_own: { (s t : Self) → same_settings s t → own s ≡ own t };

    /// Where no setting moved, the depth is the same.
    ghost same_depth: { (s t : Self) → same_settings s t → depth s ≡ depth t };

    ghost same_self: { (s : Self) → same_settings s s };

    /// What stays from call to call stays over both.
    ghost same_on: { (s t u : Self) → same_settings s t → same_settings t u → same_settings s u };
}
