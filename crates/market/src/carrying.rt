// The trades of a walk, carried out. Each lowers the first order of the other queue, and its lots are settled for both
// accounts. That the centre cannot refuse is proved from what was judged before.
ghost use Rattle.std.specs.Prelude.{◌≡◌, ◌+◌, ◌-◌, ◌<◌, ◌≤◌, true, length, None};
ghost use Rattle.clearing.specs.Centre.{adjusted, holds, settles, verdict};
ghost use Rattle.clearing.specs.Grant.{grant_of};
ghost use Rattle.clearing.specs.Line.{hold as held_line, release as released_line, settle as settled_line};
ghost use Rattle.market.specs.Carry.{CanTrade, CarriedOut, Least, Planned, TradedFirst};
ghost use Rattle.market.specs.Order.{party, trade_of};

use crate::numbered::Numbered;
use crate::order::Order;
use crate::queue::Queue;
use crate::register::Register;
use crate::trade::{Party, Trade};
use clearing::centre::Centre;
use clearing::grant::Grant;
use clearing::side::Side;
use dealing::call::Entry;

// The record of a trade of an entry with a resting order, at the order's price.
fn trade_with(order: &Order, side: Side, me: Party, lots: u64) -> Trade
    ensures { result ≡ trade_of side me order.now lots }
{
    let them = Party {
        number: order.number,
        account: order.account(),
    };
    let (buy, sell) = match side {
        Side::Buy => (me, them),
        Side::Sell => (them, me),
    };
    Trade {
        buy,
        sell,
        price: order.price,
        lots,
    }
}

// Reserves an entry's lots, to which the centre says yes.
pub(crate) fn reserve<C: Centre>(centre: &mut C, entry: &Entry, lots: u64) -> Grant
    requires { verdict (C.Centre.own centre.old) (C.Centre.lines centre.old) entry.now.account entry.now.side lots ≡ None }
    ensures lines { C.Centre.lines centre.new ≡ adjusted (C.Centre.lines centre.old) entry.now.account (held_line entry.now.side lots) }
    ensures grant { result ≡ grant_of entry.now.account entry.now.side lots }
    ensures settings { C.Centre.same_settings centre.old centre.new }
{
    centre.reserve(entry.account, entry.side, lots).unwrap()
}

// Gives back lots that the account's line holds.
pub(crate) fn give_back<C: Centre>(centre: &mut C, grant: Grant)
    requires { holds (C.Centre.lines centre.old grant.account) grant.side grant.lots ≡ true }
    ensures lines { C.Centre.lines centre.new ≡ adjusted (C.Centre.lines centre.old) grant.account (released_line grant.side grant.lots) }
    ensures settings { C.Centre.same_settings centre.old centre.new }
{
    centre.give_back(grant).unwrap();
}

// Settles lots of a grant that the account's line holds.
fn settle<C: Centre>(centre: &mut C, grant: Grant, lots: u64) -> Grant
    requires { settles (C.Centre.lines centre.old) grant lots ≡ true }
    ensures lines { C.Centre.lines centre.new ≡ adjusted (C.Centre.lines centre.old) grant.account (settled_line grant.side lots) }
    ensures grant { result ≡ grant_of grant.account grant.side (grant.lots - lots) }
    ensures settings { C.Centre.same_settings centre.old centre.new }
{
    centre.settle(grant, lots).unwrap()
}

// One trade with the first order of the other queue. The entry's grant comes back without the lots that traded.
fn trade_first<C: Centre>(
    theirs: &mut Queue,
    register: &mut Register,
    centre: &mut C,
    side: Side,
    me: Party,
    grant: Grant,
    lots: u64,
) -> Grant
    requires room { length register.old < 512 }
    requires account { grant.account ≡ me.account }
    requires side { grant.side ≡ side }
    requires lots { lots ≤ grant.lots }
    requires can { CanTrade (C.Centre.lines centre.old) theirs.old.orders side me lots }
    ensures traded { TradedFirst side me lots (C.Centre.lines centre.old) theirs.old.orders register.old (C.Centre.lines centre.new) theirs.new.orders register.new }
    ensures grant { result ≡ grant_of me.account side (grant.lots - lots) }
    ensures settings { C.Centre.same_settings centre.old centre.new }
{
    let trade = trade_with(&theirs.as_slice()[0], side, me, lots);
    let resting = theirs.lower(0, lots);
    let rest = settle(centre, grant, lots);
    let _spent = settle(centre, resting, lots);
    register.push(trade).unwrap();
    rest
}

// The lots of the first order of a queue, or so many as are asked for.
fn first_lots(theirs: &Queue, lots: u64) -> u64
    requires { 1 ≤ length theirs.now.orders }
    ensures { Least theirs.now.orders lots result }
{
    lots.min(theirs.as_slice()[0].lots())
}

// Carries out so many trades of an entry's walk. What is left of the entry's grant comes back.
pub(crate) fn trade_on<C: Centre>(
    theirs: &mut Queue,
    register: &mut Register,
    centre: &mut C,
    numbered: &Numbered,
    grant: Grant,
    lots: u64,
    trades: usize,
) -> Grant
    requires room { length register.old + trades ≤ 512 }
    requires grant { grant ≡ grant_of numbered.now.entry.account numbered.now.entry.side lots }
    requires planned { Planned (C.Centre.lines centre.old) theirs.old.orders numbered.now.entry numbered.now.number lots trades }
    ensures carried { CarriedOut numbered.now.entry numbered.now.number lots trades (C.Centre.lines centre.old) theirs.old.orders register.old (C.Centre.lines centre.new) theirs.new.orders register.new result }
    ensures held { holds (C.Centre.lines centre.new numbered.now.entry.account) numbered.now.entry.side result.lots ≡ true }
    ensures settings { C.Centre.same_settings centre.old centre.new }
{
    let me = numbered.party();
    let mut rest = grant;
    let mut left = lots;
    for _i in 0..trades {
        let n = first_lots(theirs, left);
        rest = trade_first(theirs, register, centre, numbered.entry.side, me, rest, n);
        left -= n;
    }
    rest
}
