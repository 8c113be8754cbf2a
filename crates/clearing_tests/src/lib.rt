// The clearing centres by hand: grants, and what no market and no setting of a house comes to.
#![tactic(auto)]

#[cfg(test)]
mod ends;
#[cfg(test)]
mod firms;
#[cfg(test)]
mod grants;
#[cfg(test)]
mod scene;
#[cfg(test)]
mod values;
