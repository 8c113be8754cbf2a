// The desk: a command line is read, called and answered by a printed line.
#![tactic(auto)]

pub mod answer;
pub mod desk;
