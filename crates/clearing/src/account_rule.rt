// A rule that judges new lots by the account's own line and by one number that the house sets for the account.
ghost use Rattle.std.specs.Prelude.{◌≡◌, ℕ, Bool};
ghost use Rattle.clearing.specs.declared.line.Line.{Line};
ghost use Rattle.clearing.specs.declared.side.Side.{Side};

use crate::line::Line;
use crate::side::Side;

pub trait AccountRule {
    /// Whether the account's allowance and line leave room for new lots on a side.
    ghost admits: { Self → ℕ → Line → Side → ℕ → Bool };

    /// The largest allowance that an account may have.
    ghost top: { ℕ };

    fn admits(&self, allowance: u64, line: &Line, side: Side, lots: u64) -> bool
        ensures { result ≡ admits self.now allowance line.now side lots };

    fn top() -> u64
        ensures { result ≡ top };
}
