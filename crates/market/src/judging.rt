// An entry is judged on the state before it: the refusals in their order, or the plan of its walk. Nothing is written.
ghost use Rattle.std.specs.Prelude.{◌≡◌, ◌<◌, ◌≤◌, true, length, take};
ghost use Rattle.clearing.specs.Side.{other};
ghost use Rattle.market.specs.BookState.{Judged, Plans, orders_out_of_step, state_of, taker_of};
ghost use Rattle.market.specs.Calls.{allowed, entry_lots, first_of, out_of_step, terms_checks, walk_checks, walk_of};
ghost use Rattle.market.specs.State.{is_trading, queue_of};

use crate::book::Book;
use crate::checks::{bad_market_terms, entry_lots, lots_fit, out_of_band, rest_joins};
use crate::ending::Ending;
use crate::numbered::Numbered;
use crate::plan::{Plan, plan_walk};
use crate::queue::Queue;
use crate::rule::QueueRule;
use crate::step_check::in_step;
use crate::taker::Taker;
use clearing::centre::Centre;
use clearing::side::Side;
use dealing::call::{Entry, Rest};
use dealing::refusal::Refusal;

// The last order number that can be given.
const LAST_NUMBER: u32 = 999_999;

impl<R: QueueRule> Book<R> {
    pub(crate) fn queue(&self, side: Side) -> &Queue
        ensures { result.now.orders ≡ queue_of side (state_of self.now) }
    {
        match side {
            Side::Buy => &self.buys,
            Side::Sell => &self.sells,
        }
    }

    // Refuses an entry that its own terms forbid.
    fn check_terms(&self, entry: &Entry) -> Result<(), Refusal>
        requires { is_trading self.now.sitting.period ≡ true }
        ensures { result ≡ allowed (first_of (terms_checks (state_of self.now) entry.now)) }
    {
        if !lots_fit(entry.lots) {
            return Err(Refusal::LotsOutOfRange);
        }
        if bad_market_terms(entry) {
            return Err(Refusal::MarketTerms);
        }
        if out_of_band(entry, self.sitting.low, self.sitting.high) {
            return Err(Refusal::PriceOutOfBand);
        }
        if self.last >= LAST_NUMBER {
            return Err(Refusal::NumbersUsedUp);
        }
        Ok(())
    }

    // What an entry brings to its walk, under the next number.
    fn taker(&self, entry: Entry) -> Taker
        requires { self.now.last < 999999 }
        ensures { result ≡ taker_of (state_of self.now) entry }
    {
        let theirs = self.queue(entry.side.other()).as_slice();
        let first = theirs.first().map(|order| order.price);
        let number = self.last + 1;
        Taker {
            numbered: Numbered { entry, number },
            deviation: self.sitting.deviation,
            first,
        }
    }

    // The plan of an entry's walk.
    fn plan(&self, entry: Entry) -> Plan
        requires { self.now.last < 999999 }
        ensures plans { Plans result (walk_of (R.QueueRule.rule self.now.rule.rule) (state_of self.now) entry) }
        ensures few { result.trades ≤ 64 }
    {
        let taker = self.taker(entry);
        let theirs = self.queue(entry.side.other());
        let lots = entry_lots(&entry);
        plan_walk(&self.rule.rule, &taker, lots, theirs.as_slice())
    }

    // Refuses an entry that the ending of its walk or the number of its trades forbids.
    fn check_walk(&self, entry: &Entry, plan: Plan) -> Result<(), Refusal>
        requires { plan.trades ≤ 64 }
        ensures { result ≡ allowed (first_of (walk_checks (state_of self.now) entry.now plan.ending plan.trades)) }
    {
        if plan.ending == Ending::Own && plan.trades == 0 {
            return Err(Refusal::OwnOrderFirst);
        }
        if entry.rest == Rest::InFull && plan.ending != Ending::Filled {
            return Err(Refusal::NotInFull);
        }
        if self.register.len() + plan.trades > 512 {
            return Err(Refusal::RegisterFull);
        }
        if rest_joins(entry, plan.ending) && self.queue(entry.side).is_full() {
            return Err(Refusal::QueueFull);
        }
        Ok(())
    }

    // Whether the centre's line of an account does not cover what the account has resting on a side.
    pub(crate) fn account_out_of_step<C: Centre>(
        &self,
        centre: &C,
        side: Side,
        account: i64,
    ) -> bool
        ensures { result ≡ out_of_step (state_of self.now) (C.Centre.lines centre.now) account side }
    {
        let resting = self.queue(side).lots_resting(account);
        !in_step(centre, account, side, resting)
    }

    // Whether one of the first orders of a queue is out of step with the centre.
    fn out_of_step<C: Centre>(&self, centre: &C, side: Side, orders: usize) -> bool
        ensures { result ≡ orders_out_of_step (state_of self.now) (C.Centre.lines centre.now) side (take orders (queue_of side (state_of self.now))) }
    {
        let mut first = self.queue(side).as_slice().iter().take(orders);
        first.any(|order| self.account_out_of_step(centre, side, order.account()))
    }

    // Judges an entry: its refusal, or the plan of its walk.
    pub(crate) fn judge<C: Centre>(&self, centre: &C, entry: &Entry) -> Result<Plan, Refusal>
        requires { is_trading self.now.sitting.period ≡ true }
        ensures { Judged (R.QueueRule.rule self.now.rule.rule) (C.Centre.own centre.now) (state_of self.now) (C.Centre.lines centre.now) entry.now result }
    {
        self.check_terms(entry)?;
        let plan = self.plan(*entry);
        self.check_walk(entry, plan)?;
        if self.out_of_step(centre, entry.side.other(), plan.trades) {
            return Err(Refusal::OutOfStep);
        }
        centre.question(entry.account, entry.side, entry_lots(entry))?;
        Ok(plan)
    }
}
