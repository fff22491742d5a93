// A list of calls on a book and its runs, to be made in the order in which they are put on it.
use crate::brought::{AnyArithmetic, AnySource, Call};
use run::FinishedResidue;
use session::BookCall;
use std::alloc::{AllocError, Global};
use theory::Kind;

#[derive(Drop)]
pub(crate) struct Calls {
    list: Vec<Call>,
}

impl Calls {
    pub(crate) fn new(heap: Global) -> Calls {
        let list = Vec::new(heap);
        Calls { list }
    }

    pub(crate) fn into_list(self) -> Vec<Call> {
        self.list
    }

    fn put(&mut self, call: Call) -> Result<(), AllocError> {
        self.list.push(call)?;
        Ok(())
    }

    pub(crate) fn open(&mut self, kind: Kind, modulus: u32) -> Result<(), AllocError> {
        self.put(BookCall::Open { kind, modulus })
    }

    pub(crate) fn carry_on(
        &mut self,
        run: usize,
        terms: u32,
        arithmetic: AnyArithmetic,
    ) -> Result<(), AllocError> {
        self.put(BookCall::CarryOn {
            run,
            arithmetic,
            terms,
        })
    }

    // With that many cells.
    pub(crate) fn count_on(
        &mut self,
        run: usize,
        terms: u32,
        arithmetic: AnyArithmetic,
        source: AnySource,
        count: usize,
    ) -> Result<(), AllocError> {
        let cells = vec![in *self.list.allocator(); 0u64; count]?;
        self.put(BookCall::CountOn {
            run,
            arithmetic,
            source,
            cells,
            terms,
        })
    }

    pub(crate) fn finish(
        &mut self,
        run: usize,
        arithmetic: AnyArithmetic,
    ) -> Result<(), AllocError> {
        self.put(BookCall::Finish { run, arithmetic })
    }

    pub(crate) fn tell(&mut self, run: usize) -> Result<(), AllocError> {
        self.put(BookCall::Tell { run })
    }

    pub(crate) fn fill(&mut self, run: usize) -> Result<(), AllocError> {
        self.put(BookCall::Fill { run })
    }

    pub(crate) fn fill_with(&mut self, finished: FinishedResidue) -> Result<(), AllocError> {
        self.put(BookCall::FillWith { finished })
    }

    pub(crate) fn show(&mut self, modulus: u32) -> Result<(), AllocError> {
        self.put(BookCall::Show { modulus })
    }
}
