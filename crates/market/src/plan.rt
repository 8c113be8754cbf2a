// The plan of a walk: what it would come to, before anything is changed.
ghost use Rattle.market.specs.PlanTable.{eligible_by, reach_of, walk_by};
ghost use Rattle.std.specs.Prelude.{◌≡◌, length};

use crate::ending::Ending;
use crate::order::Order;
use crate::rule::QueueRule;
use crate::taker::Taker;

// What the walk of an entry would come to.
#[derive(Clone, Copy)]
pub struct Plan {
    pub(crate) ending: Ending,
    // The entry's lots that find no counterpart.
    pub(crate) left: u64,
    // How many trades it makes.
    pub(crate) trades: usize,
}

// What a walk comes to at one order.
#[derive(Clone, Copy)]
enum Reach {
    // The order is used up whole, and the walk goes on.
    UsedUp,
    // The entry takes its last lots from the order.
    Partly,
    // The walk ends before the order.
    Stopped(Ending),
}

fn judge<R: QueueRule>(rule: &R, taker: &Taker, left: u64, order: &Order) -> Reach
    ensures { result ≡ reach_of (eligible_by (R.QueueRule.rule rule.now) taker.now) taker.now.numbered.entry left order.now }
{
    if left == 0 {
        return Reach::Stopped(Ending::Filled);
    }
    if !taker.eligible(rule, order) {
        return Reach::Stopped(Ending::Short);
    }
    if order.account() == taker.numbered.entry.account {
        return Reach::Stopped(Ending::Own);
    }
    if order.lots() <= left {
        Reach::UsedUp
    } else {
        Reach::Partly
    }
}

// The plan of an entry with so many lots, down a queue from its first order.
pub(crate) fn plan_walk<R: QueueRule>(rule: &R, taker: &Taker, lots: u64, queue: &[Order]) -> Plan
    ensures ending { result.ending ≡ (walk_by (R.QueueRule.rule rule.now) taker.now lots queue.now).ending }
    ensures left { result.left ≡ (walk_by (R.QueueRule.rule rule.now) taker.now lots queue.now).left }
    ensures trades { result.trades ≡ length (walk_by (R.QueueRule.rule rule.now) taker.now lots queue.now).trades }
{
    let mut left = lots;
    for (i, order) in queue.iter().enumerate() {
        match judge(rule, taker, left, order) {
            Reach::UsedUp => left -= order.lots(),
            Reach::Partly => {
                return Plan {
                    ending: Ending::Filled,
                    left: 0,
                    trades: i + 1,
                };
            }
            Reach::Stopped(ending) => {
                return Plan {
                    ending,
                    left,
                    trades: i,
                };
            }
        }
    }
    Plan {
        ending: if left == 0 {
            Ending::Filled
        } else {
            Ending::Short
        },
        left,
        trades: queue.len(),
    }
}
