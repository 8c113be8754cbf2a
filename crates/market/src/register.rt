// The register: every trade of a market, in the order made.
use crate::trade::Trade;
use ordered::row::Row;

pub type Register = Row<Trade, 512>;
