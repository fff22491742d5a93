// Published Bernoulli numbers against the library: every value modulo several primes, by every way that there is.
#![tactic(auto)]

mod extremes;
mod numeral;
mod stop;
mod values;
mod ways;

use crate::extremes::{largest_modulus, refused_pairs};
use crate::numeral::fraction_residue;
use crate::stop::Stop;
use crate::values::{PRIMES, VALUES, Value};
use crate::ways::{Case, Tally};
use arithmetic::Plain;

// Prints the value, its residue modulo each prime that serves its index, and how many ways agree.
fn show_value(rt: &HostRuntime, value: Value) -> Result<Tally, Stop> {
    let Value {
        index,
        negative,
        numerator,
        denominator,
    } = value;
    let sign = if negative { "-" } else { "" };
    print!(rt; "B_{index} = {sign}{numerator}/{denominator}:")?;
    let mut tally = Tally::default();
    for prime in PRIMES {
        let modulus = prime.modulus;
        if modulus.saturating_sub(3) < index {
            continue;
        }
        let residue = fraction_residue(
            &Plain::new(modulus)?,
            negative,
            numerator.as_bytes(),
            denominator,
        );
        let case = Case {
            index,
            modulus,
            root: prime.root,
            residue,
        };
        case.try_all(&mut tally)?;
        print!(rt; " {residue} mod {modulus},")?;
    }
    let Tally { tried, agreed } = tally;
    println!(rt; " {agreed} of {tried} ways agree")?;
    Ok(tally)
}

fn main(rt: HostRuntime) -> Result<(), Stop> {
    let mut all = Tally::default();
    for value in VALUES {
        all.add(show_value(&rt, value)?);
    }
    refused_pairs(&rt)?;
    largest_modulus(&rt)?;
    let Tally { tried, agreed } = all;
    println!(rt; "{agreed} of {tried} ways agree")?;
    if agreed != tried {
        return Err(Stop::Disagreement);
    }
    Ok(())
}
