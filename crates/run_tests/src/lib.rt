// Tests of runs: what worked pairs give, what is refused and what a refusal leaves, and shares of every size.
#![tactic(auto)]

#[cfg(test)]
mod calls;
#[cfg(test)]
mod counting;
#[cfg(test)]
mod opening;
#[cfg(test)]
mod results;
#[cfg(test)]
mod shares;
#[cfg(test)]
mod told;
