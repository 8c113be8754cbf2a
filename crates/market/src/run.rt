// A run: a list of calls given to a new market, as a house replays the journal of a day.
ghost use Rattle.market.specs.BookState.{state_of};
ghost use Rattle.market.specs.Law.{IsRun, RunKeepsTheLaw};
ghost use Rattle.std.specs.Prelude.{◌≡◌, IfOk, length, vec_capacity};

use crate::market::Market;
use crate::rule::QueueRule;
use clearing::centre::Centre;
use dealing::call::Call;
use dealing::reply::Reply;
use std::alloc::{AllocError, Global};

/// The market after a run, and the replies to its calls. The market is the caller's to close.
pub struct Ran<R, C> {
    pub market: Market<R, C>,
    pub replies: Vec<Reply>,
}

/// Gives the calls to a new market over a centre, one after another. The market and the replies are those of the
/// definitions; and where the centre had nothing held or settled, the law holds at the start and after each call. The
/// replies are kept in room for exactly as many as there are calls.
pub fn run<R: QueueRule + Drop, C: Centre + Drop>(
    heap: Global,
    rule: R,
    centre: C,
    calls: &[Call],
) -> Result<Ran<R, C>, AllocError>
    ensures ran { IfOk result (λ x. IsRun (R.QueueRule.rule rule) (C.Centre.own centre) (C.Centre.lines centre) calls.now (state_of x.market.book) (C.Centre.lines x.market.centre) x.replies.items) }
    ensures settings { IfOk result (λ x. (x.market.book.rule.rule ≡ rule) × C.Centre.same_settings centre x.market.centre) }
    ensures room { IfOk result (λ x. vec_capacity x.replies ≡ length calls.now) }
    ensures law { RunKeepsTheLaw (R.QueueRule.rule rule) (C.Centre.own centre) (C.Centre.lines centre) calls.now }
{
    let mut replies = Vec::with_capacity(heap, calls.len())?;
    let mut market = Market::new(heap, rule, centre)?;
    for call in calls {
        replies.push_reserved(market.call(*call));
    }
    Ok(Ran { market, replies })
}
