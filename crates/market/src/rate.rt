// The queue rule by rate: a buy at a higher price stands first, and so does a sell at a lower one.
ghost use Rattle.market.specs.QueueRules.{by_rate};
ghost use Rattle.std.proofs.Common.{rules};

use crate::by_price::{higher_first, lower_first};
use crate::rule::{QueueRule, Quote};
use clearing::side::Side;

#[derive(Clone, Copy)]
pub struct ByRate;

impl QueueRule for ByRate {
    ghost rule = { λ _. by_rate };

    ghost irreflexive = { Prim.search rules };

    ghost transitive = { Prim.search rules };

    ghost decided = { Prim.search rules };

    ghost meeting = { Prim.search rules };

    fn before(&self, a: Quote, b: Quote) -> bool {
        match a.side {
            Side::Buy => higher_first(a, b),
            Side::Sell => lower_first(a, b),
        }
    }

    fn meet(&self, buy: Quote, sell: Quote) -> bool {
        buy.price >= sell.price
    }
}
