// The queue rule that a house chose.
ghost use Rattle.house.specs.Rule.{queue_rule};
ghost use Rattle.std.proofs.Common.{rules};

use clearing::side::Side;
use market::rate::ByRate;
use market::rule::{QueueRule, Quote};
use market::yields::ByYield;

/// One of the two queue rules of the product, chosen when the program runs (docs/FLOOR.md, section 4).
#[derive(Clone, Copy, PartialEq, Eq, Debug)]
pub enum HouseRule {
    /// A buy at a higher price stands first.
    Rate,
    /// A buy at a lower yield stands first.
    Yield,
}

impl QueueRule for HouseRule {
    ghost rule = { queue_rule };

    ghost irreflexive = { Prim.search rules };

    ghost transitive = { Prim.search rules };

    ghost decided = { Prim.search rules };

    ghost meeting = { Prim.search rules };

    fn before(&self, a: Quote, b: Quote) -> bool {
        match self {
            HouseRule::Rate => ByRate.before(a, b),
            HouseRule::Yield => ByYield.before(a, b),
        }
    }

    fn meet(&self, buy: Quote, sell: Quote) -> bool {
        match self {
            HouseRule::Rate => ByRate.meet(buy, sell),
            HouseRule::Yield => ByYield.meet(buy, sell),
        }
    }
}
