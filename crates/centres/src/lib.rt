// The centres that come with the engine: prepaid and by position, and the firm cap over any centre.
#![tactic(auto)]

pub mod either;
pub mod firm_cap;
pub mod firm_table;
pub mod layers;
pub mod position;
pub mod prepaid;

use clearing::account_centre::AccountCentre;
use position::Position;
use prepaid::Prepaid;

pub type PrepaidCentre = AccountCentre<Prepaid>;

pub type PositionCentre = AccountCentre<Position>;
