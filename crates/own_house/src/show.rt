// What is printed of a call, its reply, a trade and the lines.
use clearing::centre::Centre;
use clearing::line::Line;
use dealing::call::{Call, Entry, Kind};
use dealing::outcome::Outcome;
use dealing::reply::Reply;
use market::market::Market;
use market::rule::QueueRule;
use market::trade::Trade;
use std::io;

fn entry(rt: &impl Print, entry: Entry) -> io::Result<()> {
    let Entry {
        account,
        side,
        price,
        lots,
        ..
    } = entry;
    print!(rt; "Account {account} enters to {side} {lots} at ")?;
    match entry.kind {
        Kind::Limited => print!(rt; "{price}: "),
        Kind::Market => print!(rt; "market: "),
    }
}

/// The beginning of a line: what is asked.
pub fn call(rt: &impl Print, call: Call) -> io::Result<()> {
    match call {
        Call::Open {
            low,
            high,
            deviation,
        } => print!(rt; "Yields from {low} to {high}, deviation {deviation}: "),
        Call::Enter(terms) => entry(rt, terms),
        Call::Withdraw { account, number } => {
            print!(rt; "Account {account} withdraws order {number}: ")
        }
        Call::Reduce {
            account,
            number,
            lots,
        } => print!(rt; "Account {account} reduces order {number} by {lots}: "),
        Call::Suspend => print!(rt; "Trading is suspended: "),
        Call::Resume => print!(rt; "Trading is resumed: "),
    }
}

fn outcome(rt: &impl Print, outcome: Outcome) -> io::Result<()> {
    let number = outcome.number();
    let figures = outcome.figures();
    if figures.number == 0 {
        return println!(rt; "{number}");
    }
    println!(rt;
        "{number}, order {}, traded {}, resting {}, taken off {}",
        figures.number, figures.traded, figures.resting, figures.taken_off
    )
}

/// The end of the line: the reply's number, with the order's figures or with the centre's cause and depth.
pub fn reply(rt: &impl Print, reply: Reply) -> io::Result<()> {
    match reply {
        Ok(done) => outcome(rt, done),
        Err(refusal) => match refusal.denial() {
            Some(denial) => println!(rt; "{}, {denial}", refusal.number()),
            None => println!(rt; "{}", refusal.number()),
        },
    }
}

/// A trade of the register.
pub fn trade(rt: &impl Print, trade: &Trade) -> io::Result<()> {
    println!(rt;
        "Order {} of account {} buys {} at {}, order {} of account {} sells",
        trade.buy.number,
        trade.buy.account,
        trade.lots,
        trade.price,
        trade.sell.number,
        trade.sell.account
    )
}

/// The centre's lines of accounts, under headings; one that has no line shows 0.
pub fn lines<R: QueueRule, C: Centre>(
    rt: &impl Print,
    market: &Market<R, C>,
    accounts: &[i64],
) -> io::Result<()> {
    println!(rt; "    account   buy held   buy settled   sell held   sell settled")?;
    for &account in accounts {
        let line = market.line(account).unwrap_or_else(Line::new);
        println!(rt;
            "    {account:>7}   {:>8}   {:>11}   {:>9}   {:>12}",
            line.buy.held, line.buy.settled, line.sell.held, line.sell.settled
        )?;
    }
    Ok(())
}
