// The queue of one side of the book.
ghost use Rattle.std.specs.Prelude.{◌≡◌, ◌<◌, ◌≤◌, ◌↔◌, [], length, pos, IfOk, IsTrue};
ghost use Rattle.market.specs.Order.{joined, lots_resting};
ghost use Rattle.ordered.specs.Row.{Found};

use crate::order::Order;
use crate::rule::QueueRule;
use crate::standing::ByRule;
use ordered::find;
use ordered::row::Row;
use std::alloc::{AllocError, Global};

mod closing;
mod lowering;

// The orders of one side from first to last, at most 64, for which there is room from the start.
pub struct Queue {
    orders: Row<Order, 64>,
}

impl Queue {
    fn new(heap: Global) -> Result<Queue, AllocError>
        ensures { IfOk result (λ q. q.orders ≡ []) }
    {
        let orders = Row::new(heap)?;
        Ok(Queue { orders })
    }

    // The two queues of a book, with no orders.
    pub(crate) fn pair(heap: Global) -> Result<(Queue, Queue), AllocError>
        ensures { IfOk result (λ q. (q.0.orders ≡ []) × (q.1.orders ≡ [])) }
    {
        let first = Queue::new(heap)?;
        match Queue::new(heap) {
            Ok(second) => Ok((first, second)),
            Err(error) => {
                let Queue { orders } = first;
                orders.into_vec().destroy_empty();
                Err(error)
            }
        }
    }

    pub(crate) fn is_full(&self) -> bool
        ensures full { IsTrue result ↔ (length self.now.orders ≡ 64) }
        ensures few { length self.now.orders ≤ 64 }
    {
        self.orders.is_full()
    }

    pub(crate) fn as_slice(&self) -> &[Order]
        ensures orders { result.now ≡ self.now.orders }
        ensures few { length self.now.orders ≤ 64 }
    {
        self.orders.as_slice()
    }

    // Where the order with a number is.
    pub(crate) fn find<R: QueueRule>(&self, rule: &ByRule<R>, number: i64) -> Option<usize>
        ensures { Found (λ o. pos o.number) self.now.orders number result }
    {
        find(rule, self.as_slice(), number)
    }

    // Puts an order into its place.
    pub(crate) fn join<R: QueueRule>(&mut self, rule: &ByRule<R>, order: Order)
        requires { length self.old.orders < 64 }
        ensures { self.new.orders ≡ joined (R.QueueRule.rule rule.now.rule) order self.old.orders }
    {
        self.orders.add(rule, order).unwrap();
    }

    // The lots that an account has resting.
    pub(crate) fn lots_resting(&self, account: i64) -> u128
        ensures { result ≡ lots_resting account self.now.orders }
    {
        lots_of(self.as_slice(), account)
    }
}

// The lots of one account among a few orders. They can be more than fit into 64 bits.
fn lots_of(orders: &[Order], account: i64) -> u128
    requires { length orders.now ≤ 64 }
    ensures { result ≡ lots_resting account orders.now }
{
    let mut lots: u128 = 0;
    for order in orders {
        if order.account() == account {
            lots += u128::from(order.lots());
        }
    }
    lots
}
