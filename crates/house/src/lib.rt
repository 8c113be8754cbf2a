//! A house's settings: read from a TOML text into its queue rule and its centre, changed between calls, and shown.
#![tactic(auto)]

mod build;
pub mod centre;
mod document;
pub mod error;
mod line;
pub mod place;
pub mod read;
pub mod rule;
pub mod settings;
mod stop;
mod table;
