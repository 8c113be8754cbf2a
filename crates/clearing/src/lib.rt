// The clearing side of the engine: what a centre keeps for each account, what it allows, and what becomes of lots that
// were reserved.
#![tactic(auto)]

pub mod account;
pub mod account_centre;
mod account_line;
pub mod account_rule;
pub mod by_account;
pub mod cause;
pub mod centre;
pub mod grant;
mod ledger;
pub mod line;
pub mod resting;
pub mod side;
