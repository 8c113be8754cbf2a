//! The house that a session runs where it is given no settings: one market by rate, over a position centre.
ghost use Rattle.std.specs.Prelude.{◌≡◌, IfOk};
ghost use Rattle.clearing.specs.Ledger.{allowances_of, lines_of};
ghost use Rattle.clearing.specs.Line.{empty};
ghost use Rattle.floor_session.specs.Accounts.{for_each_account};
ghost use Rattle.market.specs.BookState.{state_of};
ghost use Rattle.market.specs.State.{new_market};

use centres::PositionCentre;
use centres::position::Position;
use market::market::Market;
use market::rate::ByRate;
use std::alloc::{AllocError, Global};

/// How many lots more an account may buy than it sells, or sell than it buys: 50.
pub const LIMIT: u64 = 50;

/// The position centre of the house: accounts 101, 102 and 103, each with the limit 50, and nothing held or settled. It
/// fails for want of memory alone.
fn centre(heap: Global) -> Result<PositionCentre, AllocError>
    ensures lines { IfOk result (λ c. lines_of c.ledger.rows ≡ for_each_account empty) }
    ensures limits { IfOk result (λ c. allowances_of c.ledger.rows ≡ for_each_account 50) }
{
    let mut centre = PositionCentre::new(heap, Position)?;
    centre.add(101, LIMIT).unwrap();
    centre.add(102, LIMIT).unwrap();
    centre.add(103, LIMIT).unwrap();
    Ok(centre)
}

/// The market that a session begins with: unopened, with no order, no trade and no number given, over the centre of the
/// house (docs/PAGE.md, section 4). It fails for want of memory alone.
pub fn open_house(heap: Global) -> Result<Market<ByRate, PositionCentre>, AllocError>
    ensures new { IfOk result (λ m. state_of m.book ≡ new_market) }
    ensures lines { IfOk result (λ m. lines_of m.centre.ledger.rows ≡ for_each_account empty) }
    ensures limits { IfOk result (λ m. allowances_of m.centre.ledger.rows ≡ for_each_account 50) }
{
    Market::new(heap, ByRate, centre(heap)?)
}
