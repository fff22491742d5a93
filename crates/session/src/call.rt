// The calls of a session, as a list of them brings them.
use run::FinishedResidue;
use theory::Kind;

// A call on the listing, before it is released.
#[derive(Clone, Copy)]
pub enum ListingCall {
    Begin { index: u32 },
    Enter { modulus: u32, generator: u32 },
}

// A call on the book or on one of its runs. Runs are numbered from 0, in the order of accepted opening: a refused opening
// takes no number. Each call brings what it works with, an arithmetic, a digit source, cells, and uses it up.
#[derive(Drop)]
pub enum BookCall<W, D> {
    Open {
        kind: Kind,
        modulus: u32,
    },
    CarryOn {
        run: usize,
        arithmetic: W,
        terms: u32,
    },
    CountOn {
        run: usize,
        arithmetic: W,
        source: D,
        cells: Vec<u64>,
        terms: u32,
    },
    Finish {
        run: usize,
        arithmetic: W,
    },
    // asks a run for its terms taken, terms left and partial sum
    Tell {
        run: usize,
    },
    // fills in what finishing the run gave; a refused residue stays with its run
    Fill {
        run: usize,
    },
    // fills in a finished residue from elsewhere; a refused one is let go
    FillWith {
        finished: FinishedResidue,
    },
    Show {
        modulus: u32,
    },
}
