// What is asked of a market and what it answers. The market answers by these types and the page reads and prints them,
// so neither has to know the other.
#![tactic(auto)]

pub mod call;
pub mod outcome;
pub mod refusal;
pub mod reply;
