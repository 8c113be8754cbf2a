// A queue ends: the lots of its orders go back to the centre.
ghost use Rattle.std.specs.Prelude.{◌≡◌};
ghost use Rattle.market.specs.Closing.{all_given_back};

use crate::queue::Queue;
use clearing::centre::Centre;

impl Queue {
    // Gives the lots of all orders back to the centre, from the first order to the last. A queue has no other end.
    pub(crate) fn close<C: Centre>(self, centre: &mut C)
        ensures lines { C.Centre.lines centre.new ≡ all_given_back (C.Centre.lines centre.old) self.orders }
        ensures settings { C.Centre.same_settings centre.old centre.new }
    {
        let Queue { mut orders } = self;
        while let Some(order) = orders.take(0) {
            let _ = centre.give_back(order.call_up_all());
        }
        orders.into_vec().destroy_empty();
    }
}
