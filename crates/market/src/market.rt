// A market: the book of one instrument over a clearing centre, and its six calls.
ghost use Rattle.market.specs.BookState.{state_of};
ghost use Rattle.market.specs.Calls.{answer, done};
ghost use Rattle.market.specs.Closing.{ComesBack, NothingStaysHeld, closed};
ghost use Rattle.market.specs.Fits.{IsMarketReply};
ghost use Rattle.market.specs.Law.{CallKeepsTheLaw};
ghost use Rattle.market.specs.State.{new_market, queue_of};
ghost use Rattle.std.specs.Prelude.{◌≡◌, ◌≤◌, length, IfOk, OnErr};

use crate::book::Book;
use crate::order::Order;
use crate::period::Period;
use crate::queue::Queue;
use crate::register::Register;
use crate::rule::QueueRule;
use crate::sitting::Sitting;
use crate::standing::ByRule;
use crate::trade::Trade;
use clearing::centre::Centre;
use clearing::line::Line;
use clearing::side::Side;
use dealing::call::Call;
use dealing::reply::Reply;
use std::alloc::{AllocError, Global};

/// A book over a clearing centre. It is never let go: it ends by `close`, or is taken apart.
pub struct Market<R, C> {
    book: Book<R>,
    centre: C,
}

impl<R: QueueRule> Book<R> {
    // Any of the six calls, over a centre. The period decides first, and then the orders. A refused call changes nothing.
    pub(crate) fn call<C: Centre>(&mut self, centre: &mut C, call: Call) -> Reply
        ensures answered { answer (R.QueueRule.rule self.old.rule.rule) (C.Centre.own centre.old) (state_of self.old) (C.Centre.lines centre.old) call ≡ done (state_of self.new) (C.Centre.lines centre.new) result }
        ensures bounded { IsMarketReply result }
        ensures refused { OnErr result ((self.new ≡ self.old) × (centre.new ≡ centre.old)) }
        ensures rule { self.new.rule ≡ self.old.rule }
        ensures settings { C.Centre.same_settings centre.old centre.new }
    {
        if let Some(reply) = self.sitting.turn(call) {
            return reply;
        }
        match call {
            Call::Enter(entry) => self.enter(centre, entry),
            Call::Withdraw { account, number } => self.withdraw(centre, account, number),
            Call::Reduce {
                account,
                number,
                lots,
            } => self.reduce(centre, account, number, lots),
            _ => unreachable(),
        }
    }
}

impl<R: QueueRule + Drop> Book<R> {
    // The book of a new market: unopened, with no order, no trade and no number given. This is the last time that it asks
    // for memory.
    pub fn new(heap: Global, rule: R) -> Result<Book<R>, AllocError>
        ensures { IfOk result (λ b. (state_of b ≡ new_market) × (b.rule.rule ≡ rule)) }
    {
        let register = Register::new(heap)?;
        let (buys, sells) = Queue::pair(heap)?;
        let sitting = Sitting {
            period: Period::Unopened,
            low: 0,
            high: 0,
            deviation: 0,
        };
        Ok(Book {
            rule: ByRule { rule },
            sitting,
            last: 0,
            buys,
            sells,
            register,
        })
    }
}

impl<R: QueueRule, C: Centre> Market<R, C> {
    /// Any of the six calls. Its reply, the book and the centre's lines are those of the definitions, and the law over
    /// runs holds of whatever calls led here, with this one after them. A call that is refused leaves the market, with its
    /// centre, as it was.
    ///
    /// The reply's number is 1 to 14 where the call is refused and 50 to 60 where it is accepted. Of its figures the
    /// order number is at most 999,999 and each count of lots at most 1,000,000, and a denial's depth is at most 99.
    pub fn call(&mut self, call: Call) -> Reply
        ensures answered { answer (R.QueueRule.rule self.old.book.rule.rule) (C.Centre.own self.old.centre) (state_of self.old.book) (C.Centre.lines self.old.centre) call ≡ done (state_of self.new.book) (C.Centre.lines self.new.centre) result }
        ensures law { CallKeepsTheLaw (R.QueueRule.rule self.old.book.rule.rule) (C.Centre.own self.old.centre) (state_of self.old.book) (C.Centre.lines self.old.centre) call result (state_of self.new.book) (C.Centre.lines self.new.centre) }
        ensures bounded { IsMarketReply result }
        ensures refused { OnErr result (self.new ≡ self.old) }
        ensures rule { self.new.book.rule ≡ self.old.book.rule }
        ensures settings { C.Centre.same_settings self.old.centre self.new.centre }
    {
        self.book.call(&mut self.centre, call)
    }

    // A market of a book and a centre, as a house has them.
    pub fn from_parts(book: Book<R>, centre: C) -> Market<R, C>
        ensures book { result.book ≡ book }
        ensures centre { result.centre ≡ centre }
    {
        Market { book, centre }
    }

    // Takes a market apart, so that a house can change its centre between calls.
    pub fn into_parts(self) -> (Book<R>, C)
        ensures book { result.0 ≡ self.book }
        ensures centre { result.1 ≡ self.centre }
    {
        let Market { book, centre } = self;
        (book, centre)
    }

    pub fn period(&self) -> Period
        ensures { result ≡ (state_of self.now.book).period }
    {
        self.book.sitting.period
    }

    // The low end of the price band.
    pub fn low(&self) -> i64
        ensures { result ≡ (state_of self.now.book).low }
    {
        self.book.sitting.low
    }

    // The high end of the price band.
    pub fn high(&self) -> i64
        ensures { result ≡ (state_of self.now.book).high }
    {
        self.book.sitting.high
    }

    // How far a market entry goes from the first price.
    pub fn deviation(&self) -> u64
        ensures { result ≡ (state_of self.now.book).deviation }
    {
        self.book.sitting.deviation
    }

    // The last order number that was given, 0 before the first.
    pub fn last_number(&self) -> u32
        ensures { result ≡ (state_of self.now.book).last }
    {
        self.book.last
    }

    // The orders of a side, from first to last.
    pub fn orders(&self, side: Side) -> &[Order]
        ensures orders { result.now ≡ queue_of side (state_of self.now.book) }
        ensures few { length result.now ≤ 64 }
    {
        self.book.queue(side).as_slice()
    }

    // The trades, in the order made.
    pub fn trades(&self) -> &[Trade]
        ensures trades { result.now ≡ (state_of self.now.book).register }
        ensures few { length result.now ≤ 512 }
    {
        self.book.register.as_slice()
    }

    // The centre's line of an account, where it has one.
    pub fn line(&self, account: i64) -> Option<Line>
        ensures { result ≡ C.Centre.lines self.now.centre account }
    {
        self.centre.line(account)
    }
}

impl<R: QueueRule + Drop, C: Centre + Drop> Market<R, C> {
    // A new market over a centre.
    pub fn new(heap: Global, rule: R, centre: C) -> Result<Market<R, C>, AllocError>
        ensures { IfOk result (λ m. (state_of m.book ≡ new_market) × (m.book.rule.rule ≡ rule) × (m.centre ≡ centre)) }
    {
        let book = Book::new(heap, rule)?;
        Ok(Market { book, centre })
    }
}

impl<R: QueueRule + Drop, C: Centre> Market<R, C> {
    /// Closes the market, in any period: every resting order leaves, and its lots are given back to the centre, which is handed
    /// back with its settings as they are. Buys come before sells, each queue from its first order to its last. An order whose
    /// lots its account's line does not hold gives none back (cause 5), and no line moves for it.
    pub fn close(self) -> C
        ensures lines { C.Centre.lines result ≡ closed (C.Centre.lines self.centre) (state_of self.book) }
        ensures back { ComesBack (state_of self.book) (C.Centre.lines self.centre) (C.Centre.lines result) }
        ensures law { NothingStaysHeld (R.QueueRule.rule self.book.rule.rule) (C.Centre.own self.centre)
            (state_of self.book) (C.Centre.lines self.centre) (C.Centre.lines result) }
        ensures settings { C.Centre.same_settings self.centre result }
    {
        let Market { book, mut centre } = self;
        let Book {
            rule: _,
            sitting: _,
            last: _,
            buys,
            sells,
            register: _,
        } = book;
        buys.close(&mut centre);
        sells.close(&mut centre);
        centre
    }
}
