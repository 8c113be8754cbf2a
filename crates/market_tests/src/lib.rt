// What no scenario can say of a market: what it answers over a centre that was changed by other means than its calls.
#![tactic(auto)]

#[cfg(test)]
mod centre_changed;
#[cfg(test)]
mod steps;
