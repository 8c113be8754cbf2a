// The queue rule by yield: a buy at a lower yield stands first, and so does a sell at a higher one.
ghost use Rattle.market.specs.QueueRules.{by_yield};
ghost use Rattle.std.proofs.Common.{rules};

use crate::by_price::{higher_first, lower_first};
use crate::rule::{QueueRule, Quote};
use clearing::side::Side;

#[derive(Clone, Copy)]
pub struct ByYield;

impl QueueRule for ByYield {
    ghost rule = { λ _. by_yield };

    ghost irreflexive = { Prim.search rules };

    ghost transitive = { Prim.search rules };

    ghost decided = { Prim.search rules };

    ghost meeting = { Prim.search rules };

    fn before(&self, a: Quote, b: Quote) -> bool {
        match a.side {
            Side::Buy => lower_first(a, b),
            Side::Sell => higher_first(a, b),
        }
    }

    fn meet(&self, buy: Quote, sell: Quote) -> bool {
        buy.price <= sell.price
    }
}
