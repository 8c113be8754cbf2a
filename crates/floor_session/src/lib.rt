//! The program `session`, as a library: its arguments, the house that it runs where it is given no settings, settings and
//! phrases from files, and the run itself.
#![tactic(auto)]

pub mod default_house;
pub mod options;
pub mod phrases;
pub mod program;
pub mod settings;
