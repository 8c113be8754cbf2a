// The book of one instrument, without its centre.
ghost use Rattle.clearing.specs.declared.side.Side.TheVariants.{Buy, Sell};
ghost use Rattle.market.specs.Fits.{number_max, orders_fit};
ghost use Rattle.market.specs.Order.{all_on};
ghost use Rattle.std.specs.Prelude.{◌≡◌, ◌≤◌, true};

use crate::queue::Queue;
use crate::register::Register;
use crate::sitting::Sitting;
use crate::standing::ByRule;

/// The queue rule, the period with its terms, the last number given, both queues and the register. Buys wait in one queue
/// and sells in the other. No number given passes 999,999, and no resting order has more than 1,000,000 lots.
///
/// A book is never let go, since lots are held for its orders: it ends with its market (`Market::close`).
pub struct Book<R> {
    pub(crate) rule: ByRule<R>,
    pub(crate) sitting: Sitting,
    pub(crate) last: u32,
    pub(crate) buys: Queue,
    pub(crate) sells: Queue,
    pub(crate) register: Register,
    ghost bought: { all_on Buy buys.orders ≡ true },
    ghost sold: { all_on Sell sells.orders ≡ true },
    ghost given: { last ≤ number_max },
    ghost buys_fit: { orders_fit buys.orders ≡ true },
    ghost sells_fit: { orders_fit sells.orders ≡ true },
}
