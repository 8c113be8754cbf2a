// Tables of steps: calls of a market, each with the reply that is due.
use clearing::centre::Centre;
use clearing::side::Side;
use dealing::call::{Call, Entry, Kind, Rest};
use dealing::reply::{Reply, number};
use market::market::Market;
use market::rule::QueueRule;
use std::process::Abort;

// A limited entry is written as account, type, price and lots, a market entry as account and lots.
#[derive(Clone, Copy)]
pub enum Ask {
    Open,
    Buy(i64, Rest, i64, i64),
    Sell(i64, Rest, i64, i64),
    BuyAtMarket(i64, i64),
    Withdraw(i64, i64),
    Reduce(i64, i64, i64),
    Suspend,
    Resume,
}

// What is asked, the number of the reply, and the figures that go with it, or the cause and the depth of a denial.
pub type Step = (Ask, u8, [u64; 4]);

pub const NONE: [u64; 4] = [0, 0, 0, 0];

fn limited(account: i64, side: Side, rest: Rest, price: i64, lots: i64) -> Call {
    Call::Enter(Entry {
        account,
        side,
        kind: Kind::Limited,
        rest,
        price,
        lots,
    })
}

impl Ask {
    // A table is written by rate. By yield it is read with buys and sells exchanged, so that the same orders stand first.
    fn call(self, buys: Side) -> Call {
        match self {
            Ask::Open => Call::Open {
                low: 1,
                high: 100_000,
                deviation: 50,
            },
            Ask::Buy(account, rest, price, lots) => limited(account, buys, rest, price, lots),
            Ask::Sell(account, rest, price, lots) => {
                limited(account, buys.other(), rest, price, lots)
            }
            Ask::BuyAtMarket(account, lots) => Call::Enter(Entry {
                account,
                side: buys,
                kind: Kind::Market,
                rest: Rest::TakeOff,
                price: 0,
                lots,
            }),
            Ask::Withdraw(account, number) => Call::Withdraw { account, number },
            Ask::Reduce(account, number, lots) => Call::Reduce {
                account,
                number,
                lots,
            },
            Ask::Suspend => Call::Suspend,
            Ask::Resume => Call::Resume,
        }
    }
}

fn told(reply: Reply) -> [u64; 4] {
    match reply {
        Ok(outcome) => {
            let figures = outcome.figures();
            [
                u64::from(figures.number),
                figures.traded,
                figures.resting,
                figures.taken_off,
            ]
        }
        Err(refusal) => match refusal.denial() {
            Some(denial) => {
                [
                    u64::from(denial.cause.number()),
                    u64::from(denial.depth),
                    0,
                    0,
                ]
            }
            None => NONE,
        },
    }
}

// Takes the steps one after the other, with the table's buys on this side.
pub fn run<R: QueueRule, C: Centre>(
    rt: &impl Abort,
    market: &mut Market<R, C>,
    buys: Side,
    steps: &[Step],
) {
    for step in steps {
        let (ask, due, figures) = *step;
        let call = ask.call(buys);
        let reply = market.call(call);
        assert_eq!(rt; (number(reply), told(reply)), (due, figures), "{call:?}");
    }
}
