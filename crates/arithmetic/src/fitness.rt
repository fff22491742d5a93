// The tests of an index and of a pair, the same for listings, files and runs.
ghost use Rattle.std.specs.Prelude.{◌≡◌};
ghost use Rattle.arithmetic.specs.Causes.{first_cause, index_causes, pair_causes};
ghost use Rattle.std.specs.Result.{result_err};

use crate::modulus::try_modulus;
use crate::refusal::Refusal;

// Refuses an index that no pair can serve.
pub fn try_index(index: u32) -> Result<(), Refusal>
    ensures answer { result_err result ≡ first_cause (index_causes index) }
{
    if index % 2 == 1 || !(2..=2147483646).contains(&index) {
        return Err(Refusal::Index);
    }
    Ok(())
}

// Refuses a pair that is not fit for the index.
pub fn try_pair(index: u32, modulus: u32, generator: u32) -> Result<(), Refusal>
    ensures answer { result_err result ≡ first_cause (pair_causes index modulus generator) }
{
    try_modulus(modulus)?;
    if !(2..modulus).contains(&generator) {
        return Err(Refusal::Generator);
    }
    if index > modulus - 3 {
        return Err(Refusal::IndexAboveModulus);
    }
    Ok(())
}
