// The market: queue rules, orders, trades and periods, and the law that every run of calls keeps.
#![tactic(auto)]

pub mod book;
mod by_price;
mod carrying;
mod checks;
mod ending;
mod entering;
mod judging;
pub mod law;
pub mod market;
mod numbered;
pub mod order;
pub mod period;
mod plan;
mod queue;
pub mod rate;
mod register;
pub mod rule;
pub mod run;
mod sitting;
mod standing;
mod step_check;
mod taker;
mod taking_off;
pub mod trade;
pub mod yields;
