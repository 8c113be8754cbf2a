// An order of a queue is lowered, and leaves with its last lots.
ghost use Rattle.std.specs.Prelude.{◌≡◌, ◌<◌, ◌≤◌, length, slice_index_or, slice_set};
ghost use Rattle.clearing.specs.Grant.{grant_of};
ghost use Rattle.market.specs.Order.{account_of, lots_of, lowered, side_of};
ghost use Rattle.market.specs.QueueTable.{cleared_at, lowered_at};
ghost use Rattle.market.specs.declared.order.Order.{Order};

use crate::order::Order;
use crate::queue::Queue;
use clearing::grant::Grant;

impl Queue {
    // Calls lots up out of the order at a place, which stays there even with none left.
    fn call_up(&mut self, at: usize, lots: u64) -> Grant
        requires within { at < length self.old.orders }
        requires enough { (d : Order) → lots ≤ lots_of (slice_index_or self.old.orders at d) }
        ensures grant { (d : Order) → result ≡ grant_of (account_of (slice_index_or self.old.orders at d)) (side_of (slice_index_or self.old.orders at d)) lots }
        ensures lowered { (d : Order) → self.new.orders ≡ slice_set self.old.orders at (lowered (slice_index_or self.old.orders at d) lots) }
    {
        self.orders.item_mut(at).unwrap().call_up(lots)
    }

    // Takes the order at a place out of the queue if it has no lots left.
    fn leave(&mut self, at: usize)
        requires { at < length self.old.orders }
        ensures { (d : Order) → self.new.orders ≡ cleared_at at d self.old.orders }
    {
        if self.orders.as_slice()[at].lots() == 0 {
            self.orders.take(at).unwrap().end();
        }
    }

    // Calls lots up out of the order at a place, which leaves with its last ones.
    pub(crate) fn lower(&mut self, at: usize, lots: u64) -> Grant
        requires within { at < length self.old.orders }
        requires enough { (d : Order) → lots ≤ lots_of (slice_index_or self.old.orders at d) }
        ensures grant { (d : Order) → result ≡ grant_of (account_of (slice_index_or self.old.orders at d)) (side_of (slice_index_or self.old.orders at d)) lots }
        ensures lowered { self.new.orders ≡ lowered_at at lots self.old.orders }
    {
        let grant = self.call_up(at, lots);
        self.leave(at);
        grant
    }
}
