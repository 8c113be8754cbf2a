// A house as a table that a clerk can read.
use crate::centre::{BaseCentre, HouseCentre, account_at, allowance};
use crate::read::House;
use crate::rule::HouseRule;
use centres::either::Either;
use centres::firm_table::FirmTable;
use clearing::cause::one_up;
use std::fmt;

impl fmt::Display for HouseRule {
    ghost use Rattle.house.specs.Words.{rule_text};
    ghost use Rattle.std.specs.Prelude.{Some};

    ghost output = { λ rule. Some (rule_text rule) };

    fn fmt<W: fmt::Write>(&self, f: &mut fmt::Formatter<W>) -> fmt::Result {
        f.write_str(match self {
            HouseRule::Rate => "by rate",
            HouseRule::Yield => "by yield",
        })
    }
}

// The kind of the centre, and the heading over its accounts.
fn kind<W: fmt::Write>(f: &mut fmt::Formatter<W>, base: &BaseCentre) -> fmt::Result {
    match base {
        Either::First(_) => f.write_str("Centre: by position\n     account                limit\n"),
        Either::Second(centre) => {
            let margin = centre.rule().margin();
            write!(
                f,
                "Centre: prepaid, margin {margin}\n     account              deposit\n"
            )
        }
    }
}

// Each account with its limit or its deposit, a line each.
fn accounts<W: fmt::Write>(f: &mut fmt::Formatter<W>, centre: &HouseCentre) -> fmt::Result {
    for at in 0..32 {
        if let Some(account) = account_at(centre, at) {
            let setting = allowance(centre, account).unwrap_or(0);
            write!(f, "{account:>12}{setting:>21}\n")?;
        }
    }
    Ok(())
}

// The members of a firm cap with their firms, and the caps that are not 0, a line each.
fn firms<W: fmt::Write>(f: &mut fmt::Formatter<W>, firms: &FirmTable) -> fmt::Result {
    f.write_str("     account                 firm\n")?;
    for member in firms.members() {
        write!(f, "{:>12}{:>21}\n", member.account, member.firm)?;
    }
    f.write_str("        firm                  cap\n")?;
    for firm in 1..=8u64 {
        let cap = firms.cap(firm);
        if cap != 0 {
            write!(f, "{firm:>12}{cap:>21}\n")?;
        }
    }
    Ok(())
}

/// The queue rule; the kind of the centre, with its margin where it has one; the accounts from the smallest up, each with
/// its limit or deposit; and each firm cap, the lowest first, with its depth, its members and the caps of its firms, where
/// they are not 0.
impl fmt::Display for House {
    fn fmt<W: fmt::Write>(&self, f: &mut fmt::Formatter<W>) -> fmt::Result {
        write!(f, "Queue rule: {}\n", self.rule)?;
        kind(f, self.centre.below())?;
        accounts(f, &self.centre)?;
        let mut depth: u8 = 0;
        for table in self.centre.tables() {
            depth = one_up(depth);
            write!(f, "Firm cap at depth {depth}\n")?;
            firms(f, table)?;
        }
        Ok(())
    }
}
