// An entry under the number that it was given.
ghost use Rattle.market.specs.Order.{party};
ghost use Rattle.market.specs.Walk.{entry_quote};
ghost use Rattle.std.specs.Prelude.{◌≡◌};

use crate::rule::Quote;
use crate::trade::Party;
use dealing::call::Entry;

#[derive(Clone, Copy)]
pub struct Numbered {
    pub(crate) entry: Entry,
    pub(crate) number: u32,
}

impl Numbered {
    // What a queue rule sees of it.
    pub(crate) fn quote(&self) -> Quote
        ensures { result ≡ entry_quote self.now.entry self.now.number }
    {
        Quote {
            side: self.entry.side,
            price: self.entry.price,
            number: self.number,
        }
    }

    // Its part in a trade.
    pub(crate) fn party(&self) -> Party
        ensures { result ≡ party self.now.number self.now.entry.account }
    {
        Party {
            number: self.number,
            account: self.entry.account,
        }
    }
}
