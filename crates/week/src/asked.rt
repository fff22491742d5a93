// What is printed of a call.
use crate::brought::{AnyArithmetic, AnySource, Call, Named};
use arithmetic::Arithmetic;
use digits::DigitSource;
use run::FinishedResidue;
use session::{BookCall, ListingCall};
use std::alloc::{AllocError, Global};
use std::fmt;

// A call on the listing, as it is printed.
#[derive(Clone, Copy)]
struct OnListing<'a>(&'a ListingCall);

impl fmt::Display for OnListing<'_> {
    fn fmt<W: fmt::Write>(&self, f: &mut fmt::Formatter<W>) -> fmt::Result {
        match self.0 {
            ListingCall::Begin { index } => write!(f, "begin index {index}"),
            ListingCall::Enter { modulus, generator } => write!(
                f,
                "enter ({modulus}, {generator})"
            ),
        }
    }
}

// An arithmetic or a source.
#[derive(Clone, Copy)]
struct Brought {
    name: &'static str,
    modulus: u32,
}

impl From<&AnyArithmetic> for Brought {
    fn from(arithmetic: &AnyArithmetic) -> Brought {
        Brought {
            name: arithmetic.name(),
            modulus: Arithmetic::modulus(arithmetic),
        }
    }
}

impl From<&AnySource> for Brought {
    fn from(source: &AnySource) -> Brought {
        Brought {
            name: source.name(),
            modulus: DigitSource::modulus(source),
        }
    }
}

impl fmt::Display for Brought {
    fn fmt<W: fmt::Write>(&self, f: &mut fmt::Formatter<W>) -> fmt::Result {
        let Brought { name, modulus } = self;
        write!(f, "{name} modulo {modulus}")
    }
}

// A residue from elsewhere.
#[derive(Clone, Copy)]
struct Residue<'a>(&'a FinishedResidue);

impl fmt::Display for Residue<'_> {
    fn fmt<W: fmt::Write>(&self, f: &mut fmt::Formatter<W>) -> fmt::Result {
        let index = self.0.index();
        let modulus = self.0.modulus();
        let generator = self.0.generator();
        let residue = self.0.residue();
        write!(
            f,
            "residue {residue} of index {index} for ({modulus}, {generator})"
        )
    }
}

// A call on the book.
#[derive(Clone, Copy)]
struct OnBook<'a>(&'a Call);

impl fmt::Display for OnBook<'_> {
    fn fmt<W: fmt::Write>(&self, f: &mut fmt::Formatter<W>) -> fmt::Result {
        match self.0 {
            BookCall::Open { kind, modulus } => write!(f, "open a {kind} run for {modulus}"),
            BookCall::CarryOn {
                run,
                arithmetic,
                terms,
            } => {
                let by = Brought::from(arithmetic);
                write!(f, "carry run {run} on by {terms} terms, {by}")
            }
            BookCall::CountOn {
                run,
                arithmetic,
                source,
                cells,
                terms,
            } => {
                let by = Brought::from(arithmetic);
                let from = Brought::from(source);
                let count = cells.len();
                write!(
                    f,
                    "count run {run} on by {terms} terms, {by}, {from}, {count} cells"
                )
            }
            BookCall::Finish { run, arithmetic } => {
                let by = Brought::from(arithmetic);
                write!(f, "finish run {run}, {by}")
            }
            BookCall::Tell { run } => write!(f, "tell run {run}"),
            BookCall::Fill { run } => write!(f, "fill in run {run}"),
            BookCall::FillWith { finished } => {
                let residue = Residue(finished);
                write!(f, "fill in {residue} from elsewhere")
            }
            BookCall::Show { modulus } => write!(f, "show {modulus}"),
        }
    }
}

// A text for each call, in their order.
pub(crate) fn texts(
    heap: Global,
    first: &[ListingCall],
    then: &[Call],
) -> Result<Vec<String>, AllocError> {
    let mut texts = Vec::new(heap);
    for call in first {
        texts.push(OnListing(call).to_string(heap)?)?;
    }
    for call in then {
        texts.push(OnBook(call).to_string(heap)?)?;
    }
    Ok(texts)
}
