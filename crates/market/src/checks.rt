// The tests that judge a call's numbers.
ghost use Rattle.market.specs.Calls.{bad_market_terms, entry_lots, is_price, lots_fit, opening_fits, queues_rest, rest_joins};
ghost use Rattle.market.specs.PlanTable.{lessens, outside_band};
ghost use Rattle.std.specs.Prelude.{◌≡◌};

use crate::ending::Ending;
use dealing::call::{Entry, Kind, Rest};

// A number within 999,999,999 of 0.
pub(crate) fn is_price(price: i64) -> bool
    ensures { result ≡ is_price price }
{
    (-999_999_999..=999_999_999).contains(&price)
}

// The terms that a market may be opened with.
pub(crate) fn opening_fits(low: i64, high: i64, deviation: i64) -> bool
    ensures { result ≡ opening_fits low high deviation }
{
    low <= high && is_price(low) && is_price(high) && (0..=999_999_999).contains(&deviation)
}

// The lots that an entry may have.
pub(crate) fn lots_fit(lots: i64) -> bool
    ensures { result ≡ lots_fit lots }
{
    (1..=1_000_000).contains(&lots)
}

// An entry's lots, as a count.
pub(crate) fn entry_lots(entry: &Entry) -> u64
    ensures { result ≡ entry_lots entry.now }
{
    entry.lots.unsigned_abs()
}

// Whether lots that find no counterpart are to join the queue.
pub(crate) fn queues_rest(rest: Rest) -> bool
    ensures { result ≡ queues_rest rest }
{
    rest == Rest::Queue
}

// Whether the rest of an entry joins its queue.
pub(crate) fn rest_joins(entry: &Entry, ending: Ending) -> bool
    ensures { result ≡ rest_joins entry.now ending }
{
    ending == Ending::Short && queues_rest(entry.rest)
}

// A market entry that would queue its rest, or that names a price.
pub(crate) fn bad_market_terms(entry: &Entry) -> bool
    ensures { result ≡ bad_market_terms entry.now.kind entry.now }
{
    entry.kind == Kind::Market && (queues_rest(entry.rest) || entry.price != 0)
}

// A limited entry whose price is outside the band.
pub(crate) fn out_of_band(entry: &Entry, low: i64, high: i64) -> bool
    ensures { result ≡ outside_band entry.now.kind low high entry.now.price }
{
    entry.kind == Kind::Limited && !(low..=high).contains(&entry.price)
}

// Lots that an order can be reduced by: at least 1, and fewer than it has left.
pub(crate) fn reduction_fits(lots: i64, left: u64) -> bool
    ensures { result ≡ lessens lots left }
{
    1 <= lots && lots.unsigned_abs() < left
}
