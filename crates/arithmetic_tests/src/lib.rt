// Tests of the arithmetics and the digit sources: that they agree with each other and with plain division, and when making one refuses.
#![tactic(auto)]

#[cfg(test)]
mod arithmetics;
#[cfg(test)]
mod moduli;
#[cfg(test)]
mod refusals;
#[cfg(test)]
mod sources;
