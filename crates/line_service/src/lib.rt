//! Answers the lines of a reader, one after another, on a writer.
#![tactic(auto)]

pub mod error;
mod line;
mod output;
pub mod serve;
pub mod service;
#[cfg(test)]
mod tests;
