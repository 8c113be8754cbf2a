// The rule of a position centre: what an account may come to on one side is its limit and what it settled on the other.
ghost use Rattle.centres.specs.Rules.{limit_max, position_admits};

use clearing::account_rule::AccountRule;
use clearing::line::Line;
use clearing::side::Side;

#[derive(Clone, Copy)]
pub struct Position;

impl AccountRule for Position {
    ghost admits = { λ _ limit line side lots. position_admits limit line side lots };

    ghost top = { limit_max };

    fn admits(&self, allowance: u64, line: &Line, side: Side, lots: u64) -> bool {
        let taken = line.on(side).sum() + u128::from(lots);
        let room = u128::from(allowance) + u128::from(line.on(side.other()).settled);
        taken <= room
    }

    fn top() -> u64 {
        999_999_999
    }
}
