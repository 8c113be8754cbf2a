// What a house's translator is told of a phrase text, and the program that tells it.
#![tactic(auto)]

pub mod args;
pub mod program;
pub mod report;
