// What an entry brings to its walk down the other queue.
ghost use Rattle.market.specs.Order.{quote_of};
ghost use Rattle.market.specs.PlanTable.{eligible_by, near_price};
ghost use Rattle.market.specs.Rule.{meets_across};
ghost use Rattle.market.specs.Walk.{entry_quote};
ghost use Rattle.std.specs.Prelude.{◌≡◌};

use crate::numbered::Numbered;
use crate::order::Order;
use crate::rule::QueueRule;
use clearing::side::Side;
use dealing::call::Kind;

#[derive(Clone, Copy)]
pub struct Taker {
    pub(crate) numbered: Numbered,
    // How far a market entry goes from the first price.
    pub(crate) deviation: u64,
    // The price of the order that stood first in the other queue when the entry came.
    pub(crate) first: Option<i64>,
}

impl Taker {
    fn meets<R: QueueRule>(&self, rule: &R, order: &Order) -> bool
        ensures { result ≡ meets_across (R.QueueRule.rule rule.now) self.now.numbered.entry.side (entry_quote self.now.numbered.entry self.now.numbered.number) (quote_of order.now) }
    {
        let mine = self.numbered.quote();
        let theirs = order.quote();
        match self.numbered.entry.side {
            Side::Buy => rule.meet(mine, theirs),
            Side::Sell => rule.meet(theirs, mine),
        }
    }

    fn is_near(&self, price: i64) -> bool
        ensures { result ≡ near_price self.now.deviation self.now.first price }
    {
        self.first
            .is_some_and(|first| price.abs_diff(first) <= self.deviation)
    }

    // Whether the entry can trade with a resting order, whoever its owner is.
    pub(crate) fn eligible<R: QueueRule>(&self, rule: &R, order: &Order) -> bool
        ensures { result ≡ eligible_by (R.QueueRule.rule rule.now) self.now order.now }
    {
        match self.numbered.entry.kind {
            Kind::Limited => self.meets(rule, order),
            Kind::Market => self.is_near(order.price),
        }
    }
}
