// Every way to a residue: both kinds of run, every arithmetic, singly and counted with every digit source.
use crate::stop::Stop;
use arithmetic::{Arithmetic, Balanced, Montgomery, Plain, Refusal};
use digits::{DigitSource, Divider, Doubler, Reciprocal};
use run::Run;
use theory::Kind;

// An index with a prime and its root, and the residue that every way should give.
#[derive(Clone, Copy)]
pub struct Case {
    pub index: u32,
    pub modulus: u32,
    pub root: u32,
    pub residue: u32,
}

// How many ways were tried, and how many of them gave the residue.
#[derive(Clone, Copy, Default)]
pub struct Tally {
    pub tried: u32,
    pub agreed: u32,
}

impl Tally {
    pub(crate) fn add(&mut self, other: Tally) {
        self.tried = self.tried.saturating_add(other.tried);
        self.agreed = self.agreed.saturating_add(other.agreed);
    }

    fn note(&mut self, agrees: bool) {
        self.tried = self.tried.saturating_add(1);
        if agrees {
            self.agreed = self.agreed.saturating_add(1);
        }
    }
}

// Shares that neither rows nor groups divide.
const SHARE: u32 = 4999;

impl Case {
    fn open(self, kind: Kind) -> Result<Run, Refusal> {
        Run::open(kind, self.index, self.modulus, self.root)
    }

    fn meets<W: Arithmetic>(self, run: Run, arithmetic: &W) -> Result<bool, Stop> {
        let finished = run.finish(arithmetic).map_err(|(refusal, _)| refusal)?;
        Ok(finished.residue() == self.residue)
    }

    // Singly and counted differ in what a share needs: a closure for it would take source and cells along.
    fn singly<W: Arithmetic>(self, kind: Kind, arithmetic: &W) -> Result<bool, Stop> {
        let mut run = self.open(kind)?;
        for _i in 0..run.left().div_ceil(SHARE) {
            run.carry_on(arithmetic, SHARE)?;
        }
        self.meets(run, arithmetic)
    }

    fn counted<W: Arithmetic, S: DigitSource>(
        self,
        arithmetic: &W,
        source: &mut S,
    ) -> Result<bool, Stop> {
        let mut run = self.open(Kind::Doubling)?;
        let mut cells = [0u64; 256];
        for _i in 0..run.left().div_ceil(SHARE) {
            run.count_on(arithmetic, source, &mut cells, SHARE)?;
        }
        self.meets(run, arithmetic)
    }

    // Where no doubling run can be opened, the direct one is the only way.
    fn by_arithmetic<W: Arithmetic>(self, arithmetic: &W, tally: &mut Tally) -> Result<(), Stop> {
        tally.note(self.singly(Kind::Direct, arithmetic)?);
        if matches!(self.open(Kind::Doubling), Err(Refusal::NotUsable)) {
            return Ok(());
        }
        tally.note(self.singly(Kind::Doubling, arithmetic)?);
        tally.note(self.counted(arithmetic, &mut Doubler::new(self.modulus)?)?);
        tally.note(self.counted(arithmetic, &mut Divider::new(self.modulus)?)?);
        tally.note(self.counted(arithmetic, &mut Reciprocal::new(self.modulus)?)?);
        Ok(())
    }

    pub(crate) fn try_all(self, tally: &mut Tally) -> Result<(), Stop> {
        self.by_arithmetic(&Plain::new(self.modulus)?, tally)?;
        self.by_arithmetic(&Montgomery::new(self.modulus)?, tally)?;
        self.by_arithmetic(&Balanced::new(self.modulus)?, tally)
    }
}
