// Why the program ends before its end.
use arithmetic::Refusal;
use std::io;
use thiserror::Error;

#[derive(Debug, Drop, Error)]
pub enum Stop {
    #[error("a way gave another residue than the published one")]
    Disagreement,
    #[error("refused: {0}")]
    Refused(#[from] Refusal),
    #[error("no output: {0}")]
    Output(#[from] io::Error),
}
