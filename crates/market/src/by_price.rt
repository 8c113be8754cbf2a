// The two orders by price that the queue rules are made of.
ghost use Rattle.market.specs.QueueRules.{higher_first, lower_first};
ghost use Rattle.std.specs.Prelude.{◌≡◌};

use crate::rule::Quote;

pub(crate) fn lower_first(a: Quote, b: Quote) -> bool
    ensures { result ≡ lower_first a b }
{
    (a.price, a.number) < (b.price, b.number)
}

pub(crate) fn higher_first(a: Quote, b: Quote) -> bool
    ensures { result ≡ higher_first a b }
{
    (b.price, a.number) < (a.price, b.number)
}
