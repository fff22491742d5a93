// Why a call refuses. Each refusal has a number, by which it is known outside the library.
ghost use Rattle.std.specs.Prelude.{◌≡◌, ◌==◌, Some};
ghost use Rattle.arithmetic.specs.Refusals.{refusal_number, refusal_text};

use std::error::Error;
use std::fmt;

#[derive(Clone, Copy, PartialEq, Eq, Hash, Debug)]
pub enum Refusal {
    // the index is odd or outside 2 to 2147483646
    Index = 1,
    // the modulus is even or outside 5 to 2147483647
    Modulus = 2,
    // the generator is outside 2 to p − 1
    Generator = 3,
    // the index is above p − 3
    IndexAboveModulus = 4,
    // 1,023 pairs are listed
    ListingFull = 5,
    // the modulus is listed already
    AlreadyListed = 6,
    // the finished residue has another generator than the record of its modulus
    OtherGenerator = 7,
    // the finished residue has another index than the book
    OtherIndex = 8,
    // the modulus is not listed
    NotListed = 9,
    // the record has its residue
    AlreadyFilled = 10,
    // no doubling run: 2^k leaves 1, or 2n' does not divide p − 1
    NotUsable = 11,
    // not exactly 256 cells
    CellCount = 12,
    // the arithmetic has another modulus than the run
    OtherArithmetic = 13,
    // the digit source has another modulus than the run
    OtherSource = 14,
    // the number of terms asked for is outside 1 to 1048576
    Share = 15,
    // a direct run cannot be counted on
    DirectRun = 16,
    // no term is left to take
    NoTermLeft = 17,
    // terms are left, so the run cannot be finished
    TermsLeft = 18,
    // the output is shorter than needed
    OutputShort = 23,
}

impl Refusal {
    // Refusals are the same exactly where their numbers are.
    pub fn number(self) -> u8
        ensures value { result ≡ refusal_number self }
        ensures apart { (other : Refusal) → ⟦<Refusal as PartialEq>⟧.eq self other ≡ (result == refusal_number other) }
    {
        self as u8
    }
}

// By hand, and not derived: a derived text carries no promise.
impl fmt::Display for Refusal {
    ghost output = { λ refusal. Some (refusal_text refusal) };

    fn fmt<W: fmt::Write>(&self, f: &mut fmt::Formatter<W>) -> fmt::Result {
        f.write_str(match self {
            Refusal::Index => "the index is odd or out of range",
            Refusal::Modulus => "the modulus is even or out of range",
            Refusal::Generator => "the generator is out of range",
            Refusal::IndexAboveModulus => "the modulus is too small for the index",
            Refusal::ListingFull => "the listing is full",
            Refusal::AlreadyListed => "the modulus is listed already",
            Refusal::OtherGenerator => "the record has another generator",
            Refusal::OtherIndex => "the book has another index",
            Refusal::NotListed => "the modulus is not listed",
            Refusal::AlreadyFilled => "the record has its residue",
            Refusal::NotUsable => "a doubling run is not usable",
            Refusal::CellCount => "not exactly 256 cells",
            Refusal::OtherArithmetic => "the arithmetic has another modulus",
            Refusal::OtherSource => "the source has another modulus",
            Refusal::Share => "the share is out of range",
            Refusal::DirectRun => "a direct run cannot be counted on",
            Refusal::NoTermLeft => "no term is left",
            Refusal::TermsLeft => "terms are left",
            Refusal::OutputShort => "the output is too short",
        })
    }
}

impl Error for Refusal {}
