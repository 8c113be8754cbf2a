// A queue rule as a standing order over all orders: buys before sells, which no queue has together, and by the rule on
// one side.
ghost use Rattle.market.specs.Order.{sided};
ghost use Rattle.std.specs.Prelude.{pos};
ghost use Rattle.std.proofs.Common.{rules};

use crate::order::Order;
use crate::rule::QueueRule;
use clearing::side::Side;
use ordered::Standing;

// A type of this crate around a house's rule, since no impl of another crate's trait is for any type.
#[derive(Drop)]
pub struct ByRule<R> {
    pub(crate) rule: R,
}

impl<R: QueueRule> Standing<Order> for ByRule<R> {
    ghost key = { λ o. pos o.number };

    ghost stands = { λ s. sided (R.QueueRule.rule s.rule) };

    ghost irreflexive = { Prim.search rules };

    ghost transitive = { Prim.search rules };

    ghost decided = { Prim.search rules };

    fn before(&self, a: &Order, b: &Order) -> bool {
        match (a.side(), b.side()) {
            (Side::Buy, Side::Sell) => true,
            (Side::Sell, Side::Buy) => false,
            _ => self.rule.before(a.quote(), b.quote()),
        }
    }

    fn key_of(&self, item: &Order) -> i64 {
        i64::from(item.number)
    }
}
