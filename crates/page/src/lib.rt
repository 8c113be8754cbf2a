// The page: command lines read to calls, replies printed as lines that read back, and the phrases of a house's language.
#![tactic(auto)]

pub mod command;
pub mod english;
pub mod printed;
pub mod table;
