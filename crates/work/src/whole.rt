// Carrying a run to its end. Arithmetic, source and cells are of the run's own modulus and of the right number, so that
// no call on the way can refuse.
ghost use Rattle.std.specs.Prelude.{◌≡◌};
ghost use Rattle.run.specs.Calls.{Stands};
ghost use Rattle.run.specs.Finishing.{ResultOf};
ghost use Rattle.run.specs.Places.{kind_of};
ghost use Rattle.theory.specs.Direct.{terms_of};

use arithmetic::{Arithmetic, Montgomery};
use digits::{DigitSource, Reciprocal};
use run::{FinishedResidue, LARGEST_SHARE, Run};
use theory::Kind;

// The result of the whole run, wherever it stands. A doubling run's terms are taken by counting.
pub fn work_run(mut run: Run) -> FinishedResidue
    ensures result { ResultOf result (kind_of run.progress) run.index run.modulus run.generator }
{
    let montgomery = Montgomery::new(run.modulus()).unwrap();
    match run.kind() {
        Kind::Direct => carry_to_end(&mut run, &montgomery),
        Kind::Doubling => count_to_end(&mut run, &montgomery),
    }
    run.finish(&montgomery).unwrap()
}

// Two loops, and no closure in one: a closure's contract would say again what the call in it promises.

// Takes all terms left one by one.
fn carry_to_end<W: Arithmetic>(run: &mut Run, arithmetic: &W)
    requires same { W.modulus arithmetic.now ≡ run.old.modulus }
    ensures stands { Stands run.new (kind_of run.old.progress) run.old.index run.old.modulus run.old.generator (terms_of run.old.modulus) }
{
    while run.left() > 0 {
        run.carry_on(arithmetic, LARGEST_SHARE).unwrap();
    }
}

// Takes all terms left of a doubling run, counted in groups.
fn count_to_end<W: Arithmetic>(run: &mut Run, arithmetic: &W)
    requires same { W.modulus arithmetic.now ≡ run.old.modulus }
    requires kind { kind_of run.old.progress ≡ Kind.Doubling }
    ensures stands { Stands run.new Kind.Doubling run.old.index run.old.modulus run.old.generator (terms_of run.old.modulus) }
{
    let mut source = Reciprocal::new(run.modulus()).unwrap();
    let mut cells = [0u64; 256];
    while run.left() > 0 {
        run.count_on(arithmetic, &mut source, &mut cells, LARGEST_SHARE)
            .unwrap();
    }
}
