// A market's period, and the terms that its opening set.
ghost use Rattle.clearing.specs.Centre.{Lines, Own};
ghost use Rattle.market.specs.Rule.{Rule};
ghost use Rattle.market.specs.Sitting.{Turned, at_sitting};
ghost use Rattle.market.specs.State.{State};
ghost use Rattle.std.specs.Prelude.{◌≡◌, IfNone, IfSome, OnErr};

use crate::checks::opening_fits;
use crate::period::Period;
use dealing::call::Call;
use dealing::outcome::Outcome;
use dealing::refusal::Refusal;
use dealing::reply::Reply;

#[derive(Clone, Copy)]
pub struct Sitting {
    pub(crate) period: Period,
    pub(crate) low: i64,
    pub(crate) high: i64,
    pub(crate) deviation: u64,
}

impl Sitting {
    // Answers a call that the period decides alone, and moves the period; none where an order is to be looked at. It moves
    // only with an acceptance.
    pub(crate) fn turn(&mut self, call: Call) -> Option<Reply>
        ensures turned { (R : Rule) (C : Own) (S : State) (L : Lines) → Turned R C (at_sitting self.old S) L call (at_sitting self.new S) result }
        ensures refused { IfSome result (λ reply. OnErr reply (self.new ≡ self.old)) }
        ensures let_on { IfNone result (self.new ≡ self.old) }
    {
        match (&mut self.period, call) {
            (
                p @ Period::Unopened,
                Call::Open {
                    low,
                    high,
                    deviation,
                },
            ) => {
                if !opening_fits(low, high, deviation) {
                    return Some(Err(Refusal::PriceOutOfBand));
                }
                *p = Period::Trading;
                self.low = low;
                self.high = high;
                self.deviation = deviation.unsigned_abs();
                Some(Ok(Outcome::Opened))
            }
            (p @ Period::Trading, Call::Suspend) => {
                *p = Period::Suspended;
                Some(Ok(Outcome::Suspended))
            }
            (p @ Period::Suspended, Call::Resume) => {
                *p = Period::Trading;
                Some(Ok(Outcome::Resumed))
            }
            (Period::Trading, Call::Enter(_)) => None,
            (Period::Trading | Period::Suspended, Call::Withdraw { .. } | Call::Reduce { .. }) =>
                None,
            _ => Some(Err(Refusal::WrongPeriod)),
        }
    }
}
