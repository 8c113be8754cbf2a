//! Scenarios: the settings of a house and calls in words, carried out line by line, each shown with its answer.
#![tactic(auto)]

pub mod answer;
pub mod carry;
pub mod error;
pub mod floor;
pub mod program;
pub mod rehearse;
pub mod state;
pub mod words;
