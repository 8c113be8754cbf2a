//! What is done in a house: calls to its market, and changes of its centre between them.
ghost use Rattle.market.specs.BookState.{state_of};
ghost use Rattle.market.specs.Calls.{answer, done};
ghost use Rattle.scenario.specs.Again.{StillLawful, again};
ghost use Rattle.scenario.specs.Carried.{CarriedOut, OnCalls};
ghost use Rattle.std.specs.Prelude.{◌≡◌};

use crate::answer::Answer;
use crate::floor::HouseFloor;
use crate::words::Action;
use clearing::centre::Centre;
use dealing::call::Call;
use dealing::reply::Reply;
use market::market::Market;
use market::rule::QueueRule;

// Makes a call, and then so many times again. The reply is the last one's.
fn call_again<R: QueueRule, C: Centre>(market: &mut Market<R, C>, call: Call, times: u64) -> Reply
    ensures answered { again (R.QueueRule.rule market.old.book.rule.rule) (C.Centre.own market.old.centre) call times
        (answer (R.QueueRule.rule market.old.book.rule.rule) (C.Centre.own market.old.centre) (state_of market.old.book) (C.Centre.lines market.old.centre) call)
        ≡ done (state_of market.new.book) (C.Centre.lines market.new.centre) result }
    ensures law { StillLawful (R.QueueRule.rule market.old.book.rule.rule) (C.Centre.own market.old.centre) (state_of market.old.book) (C.Centre.lines market.old.centre) (state_of market.new.book) (C.Centre.lines market.new.centre) }
    ensures rule { market.new.book.rule ≡ market.old.book.rule }
    ensures settings { C.Centre.same_settings market.old.centre market.new.centre }
{
    let mut reply = market.call(call);
    for _turn in 0..times {
        reply = market.call(call);
    }
    reply
}

/// Carries an action out. Of a call that is made several times the last reply is the answer. The law over runs goes on
/// over calls; an account or a cap changes the centre alone.
pub fn carry_out<R: QueueRule, C: HouseFloor>(
    market: Market<R, C>,
    action: Action,
) -> (Market<R, C>, Answer)
    ensures carried { CarriedOut R.QueueRule.rule C.Centre.own C.Centre.lines C.HouseFloor.account_added C.HouseFloor.cap_set market result.0 action result.1 }
    ensures law { OnCalls action (StillLawful (R.QueueRule.rule market.book.rule.rule) (C.Centre.own market.centre) (state_of market.book) (C.Centre.lines market.centre) (state_of result.0.book) (C.Centre.lines result.0.centre)) }
    ensures rule { result.0.book.rule ≡ market.book.rule }
    ensures settings { OnCalls action (C.Centre.same_settings market.centre result.0.centre) }
{
    match action {
        Action::Call { call, again } => {
            let mut market = market;
            let reply = call_again(&mut market, call, again);
            (market, Answer::Reply(reply))
        }
        Action::Account { account, setting } => {
            let (book, mut centre) = market.into_parts();
            let set = centre.add_account(account, setting);
            (Market::from_parts(book, centre), Answer::Set(set))
        }
        Action::Firm { firm, cap } => {
            let (book, mut centre) = market.into_parts();
            let set = centre.set_cap(firm, cap);
            (Market::from_parts(book, centre), Answer::Set(set))
        }
    }
}
