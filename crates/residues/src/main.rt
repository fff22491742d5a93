// The residues of one book, which is read from standard input: the line of each record is written to standard output as
// soon as the record is worked, in rising order of modulus. A book that is refused gives one line that says why.
#![tactic(auto)]

mod input;
mod output;
mod stop;

use crate::input::{LONGEST, read_front};
use crate::output::show_line;
use crate::stop::Stop;
use book::Listing;
use work::{fault_line, work_record};

// Every record of a released listing waits until it is worked, so that each of them gives its line.
fn show_residues(rt: &HostRuntime, listing: Listing) -> Result<(), Stop> {
    let mut book = listing.release();
    // by position, as working a record changes the book
    for position in 0..book.count() {
        let line = work_record(&mut book, position).unwrap();
        show_line(rt, line)?;
    }
    Ok(())
}

fn main(rt: HostRuntime) -> Result<(), Stop> {
    let mut bytes = [0u8; LONGEST];
    let count = read_front(&mut rt.stdin(), &mut bytes)?;
    let mut listing = Listing::new(rt.alloc())?;
    match listing.read(&bytes[0..count]) {
        Ok(()) => show_residues(&rt, listing),
        Err(fault) => show_line(&rt, fault_line(fault)),
    }
}
