//! The state of a market and its centre, in the words of a scenario.
ghost use Rattle.market.specs.BookState.{state_of};
ghost use Rattle.scenario.specs.Shown.{each, listed, spaced};
ghost use Rattle.scenario.specs.States.{book_text, market_text, period_text, trades_text};
ghost use Rattle.scenario.specs.Lines.{lines_text, row_of, rows_of};
ghost use Rattle.std.specs.Io.KnownBytes.{Appends};
ghost use Rattle.std.specs.Prelude.{◌≡◌, ◌++◌, ℕ, List, IfOk, OnOk};

use crate::floor::HouseFloor;
use clearing::centre::Centre;
use clearing::line::Line;
use clearing::side::Side;
use market::market::Market;
use market::order::Order;
use market::period::Period;
use market::rule::QueueRule;
use market::trade::{Party, Trade};
use std::alloc::{AllocError, Global};
use std::io::Write;
use std::{fmt, io};

// What stands in a list.
trait Item {
    ghost text: { Self → List ℕ };

    fn show<W: Write>(&self, out: &mut W) -> io::Result<()>
        ensures { OnOk result (Appends (W.contents out.old) (W.contents out.new) (text self.now)) };
}

impl Item for Order {
    ghost use Rattle.scenario.specs.Items.{order_text};

    ghost text = { order_text };

    fn show<W: Write>(&self, out: &mut W) -> io::Result<()> {
        write!(
            out,
            "{}:{}@{}x{}",
            self.number(),
            self.account(),
            self.price(),
            self.lots()
        )
    }
}

// One of the two orders of a trade.
#[derive(Clone, Copy)]
struct ShownParty(Party);

impl fmt::Display for ShownParty {
    ghost use Rattle.scenario.specs.Trades.{party_text};
    ghost use Rattle.std.specs.Prelude.{Some};

    ghost output = { λ shown. Some (party_text shown.0) };

    fn fmt<W: fmt::Write>(&self, f: &mut fmt::Formatter<W>) -> fmt::Result {
        write!(f, "{}:{}", self.0.number, self.0.account)
    }
}

impl Item for Trade {
    ghost use Rattle.scenario.specs.Trades.{trade_text};

    ghost text = { trade_text };

    fn show<W: Write>(&self, out: &mut W) -> io::Result<()> {
        let buy = ShownParty(self.buy);
        let sell = ShownParty(self.sell);
        write!(out, "{buy} {sell} @{} x{}", self.price, self.lots)
    }
}

/// The line of an account.
#[derive(Clone, Copy, PartialEq, Eq, Debug)]
pub struct Row {
    pub account: i64,
    pub line: Line,
}

impl Item for Row {
    ghost use Rattle.scenario.specs.Items.{row_text};

    ghost text = { row_text };

    fn show<W: Write>(&self, out: &mut W) -> io::Result<()> {
        let buy = self.line.buy;
        let sell = self.line.sell;
        write!(out, "{} {} {} ", self.account, buy.held, buy.settled)?;
        write!(out, "{} {}", sell.held, sell.settled)
    }
}

// Each with the same text before it.
fn show_each<W: Write, T: Item>(out: &mut W, before: &str, items: &[T]) -> io::Result<()>
    ensures { OnOk result (Appends (W.contents out.old) (W.contents out.new)
        (each before.now T.Item.text items.now)) }
{
    for item in items {
        out.write_all(before.as_bytes())?;
        item.show(out)?;
    }
    Ok(())
}

// All of them, or that there is none.
fn show_list<W: Write, T: Item>(out: &mut W, items: &[T]) -> io::Result<()>
    ensures { OnOk result (Appends (W.contents out.old) (W.contents out.new)
        (listed T.Item.text items.now)) }
{
    match items {
        [] => out.write_all(b"none"),
        [first, more @ ..] => {
            first.show(out)?;
            show_each(out, "; ", more)
        }
    }
}

/// Both queues, from first to last: `B 1:101@7x3 2:102@6x10 | S`.
pub fn show_book<W: Write, R: QueueRule, C: Centre>(
    out: &mut W,
    market: &Market<R, C>,
) -> io::Result<()>
    ensures { OnOk result (Appends (W.contents out.old) (W.contents out.new)
        (book_text (state_of market.now.book))) }
{
    out.write_all(b"B")?;
    show_each(out, " ", market.orders(Side::Buy))?;
    out.write_all(b" | S")?;
    show_each(out, " ", market.orders(Side::Sell))
}

/// The trades in the order made, the buy first: `3:103 1:101 @7000 x10; 3:103 2:102 @7001 x5`; or `none`.
pub fn show_trades<W: Write, R: QueueRule, C: Centre>(
    out: &mut W,
    market: &Market<R, C>,
) -> io::Result<()>
    ensures { OnOk result (Appends (W.contents out.old) (W.contents out.new)
        (trades_text (state_of market.now.book))) }
{
    show_list(out, market.trades())
}

fn period_name(period: Period) -> &'static str
    ensures { result.now ≡ period_text period }
{
    match period {
        Period::Unopened => "unopened",
        Period::Trading => "trading",
        Period::Suspended => "suspended",
    }
}

/// `trading low=1 high=100 deviation=5 given=3 trades=2`; all numbers are 0 before the market is opened.
pub fn show_market<W: Write, R: QueueRule, C: Centre>(
    out: &mut W,
    market: &Market<R, C>,
) -> io::Result<()>
    ensures { OnOk result (Appends (W.contents out.old) (W.contents out.new)
        (market_text (state_of market.now.book))) }
{
    write!(out, "{} ", period_name(market.period()))?;
    write!(out, "low={} high={} ", market.low(), market.high())?;
    write!(out, "deviation={} ", market.deviation())?;
    let trades = market.trades().len();
    write!(out, "given={} trades={trades}", market.last_number())
}

// The row of an account that has a line.
fn add_row(rows: &mut Vec<Row>, account: i64, line: Option<Line>) -> Result<(), AllocError>
    ensures { OnOk result (rows.new.items ≡ rows.old.items ++ row_of account line) }
{
    if let Some(line) = line {
        rows.push(Row { account, line })?;
    }
    Ok(())
}

// The accounts that have a line, each with its line, in ascending order.
fn rows<C: HouseFloor>(heap: Global, centre: &C) -> Result<Vec<Row>, AllocError>
    ensures { IfOk result (λ rows. rows.items ≡ rows_of (C.Centre.lines centre.now) (C.HouseFloor.accounts centre.now)) }
{
    let mut rows = Vec::new(heap);
    for at in 0..usize::MAX {
        let Some(account) = centre.account_at(at) else {
            return Ok(rows);
        };
        add_row(&mut rows, account, centre.line(account))?;
    }
    // More accounts than there are addresses fit no memory.
    Err(AllocError)
}

/// The accounts' lines: held and settled of buys, then of sells: `101 0 10 0 0; 102 2 0 5 5`; or `none`.
pub fn show_lines<W: Write, C: HouseFloor>(heap: Global, out: &mut W, centre: &C) -> io::Result<()>
    ensures { OnOk result (Appends (W.contents out.old) (W.contents out.new)
        (lines_text (C.Centre.lines centre.now) (C.HouseFloor.accounts centre.now))) }
{
    let rows = rows(heap, centre)?;
    show_list(out, rows.as_slice())
}

impl<'a> Item for &'a str {
    ghost text = { λ word. word.now };

    fn show<W: Write>(&self, out: &mut W) -> io::Result<()> {
        out.write_all(self.as_bytes())
    }
}

/// Words, parted by one blank.
pub(crate) fn show_words<W: Write>(out: &mut W, words: &[&str]) -> io::Result<()>
    ensures { OnOk result (Appends (W.contents out.old) (W.contents out.new) (spaced words.now)) }
{
    match words {
        [] => Ok(()),
        [first, more @ ..] => {
            first.show(out)?;
            show_each(out, " ", more)
        }
    }
}
