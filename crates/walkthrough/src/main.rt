// A walk through the calls on runs: each run is opened, carried on share by share, told of after each, and finished.
#![tactic(auto)]

mod runs;
mod shown;
mod stop;

use crate::runs::{counted_run, direct_run, doubling_run, refused_run};
use crate::stop::Stop;

fn main(rt: HostRuntime) -> Result<(), Stop> {
    direct_run(&rt, 8, 11, 2)?;
    direct_run(&rt, 8, 17, 3)?;
    doubling_run(&rt)?;
    counted_run(&rt)?;
    refused_run(&rt)
}
