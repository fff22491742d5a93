// What a whole run gives.
ghost use Rattle.std.specs.Prelude.{◌≡◌, true};
ghost use Rattle.theory.specs.Kinds.{run_result, can_run};
ghost use Rattle.theory.specs.Pairs.{Fit};

use theory::Kind;

// The result of a whole run, with the index and the pair that it is of. None can be made but by finishing a run, and
// filling it in uses it up. Index, modulus and generator stand each for itself, here and in a run: clauses, definitions and
// calls name one of them at a time, and a struct of the three would stand before each for two ghost fields said once less.
#[derive(Debug, Drop)]
pub struct FinishedResidue {
    pub(crate) kind: Kind,
    pub(crate) index: u32,
    pub(crate) modulus: u32,
    pub(crate) generator: u32,
    pub(crate) residue: u32,
    ghost fit: { Fit index modulus generator },
    ghost usable: { can_run kind modulus index ≡ true },
    ghost result: { residue ≡ run_result kind modulus generator index },
}
