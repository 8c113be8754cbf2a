// Tests of the page: what is printed, read back, read as a command and set as a table.
#![tactic(auto)]

#[cfg(test)]
mod commands;
#[cfg(test)]
mod lines;
#[cfg(test)]
mod texts;
