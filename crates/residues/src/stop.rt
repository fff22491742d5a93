// Why the program ends before its end: memory, input or output failed.
use std::alloc::AllocError;
use std::io;
use thiserror::Error;

#[derive(Debug, Drop, Error)]
pub enum Stop {
    #[error("out of memory")]
    Memory,
    #[error("input or output failed: {0}")]
    Stream(#[from] io::Error),
}

// by hand: a derived one would have the variant hold the error, and `main` print it so
impl From<AllocError> for Stop {
    fn from(_error: AllocError) -> Stop {
        Stop::Memory
    }
}
