// The sums that give Bernoulli numbers modulo p. The definitions stand in specs/. Each function here does nothing: its
// contract is a theorem about them, so that the crate is not proved without the theorem's proof.
#![tactic(auto)]

ghost use Rattle.std.specs.Prelude.{true, ◌≡◌};
ghost use Rattle.theory.specs.Examples.{examples_test, TestsTold};
ghost use Rattle.theory.specs.Theorems.{BernoulliExist, BernoulliUnique, PowerSumsGiveBernoulli, DirectGivesBernoulli};
ghost use Rattle.theory.specs.Theorems.{DoublingGivesBernoulli, SoundRowsFit, OrderComputed, RowsFit, OrderLeastDivisor};

mod kind;

pub use kind::Kind;

// For a sound pair the recurrence has one and only one solution b_0, …, b_(p − 3) below p.
pub fn bernoulli_numbers_exist_once()
    ensures exist { BernoulliExist }
    ensures unique { BernoulliUnique }
{}

// For a sound pair and 1 ≤ n ≤ p − 3, p·b_n and the sum of the n-th powers from 1 to p − 1 agree modulo p².
pub fn power_sums_give_bernoulli()
    ensures theorem { PowerSumsGiveBernoulli }
{}

// For a fit and sound pair the direct result is B_k modulo p.
pub fn direct_sum_gives_bernoulli()
    ensures theorem { DirectGivesBernoulli }
{}

// For a fit, sound and usable pair the doubling result is B_k modulo p; for a sound pair the rows fit into p − 1.
pub fn doubling_sum_gives_bernoulli()
    ensures theorem { DoublingGivesBernoulli }
    ensures rows { SoundRowsFit }
{}

// For an odd p from 5 on: the computed order is the order of 2, the rows fit exactly where 2^(p − 1) leaves 1, and then
// the order is the least divisor d of p − 1 with 2^d leaving 1.
pub fn order_of_two_is_computed()
    ensures order { OrderComputed }
    ensures rows { RowsFit }
    ensures divisor { OrderLeastDivisor }
{}

// The definitions give what is known of some small pairs.
pub fn worked_pairs_hold()
    ensures computed { examples_test ≡ true }
    ensures told { TestsTold }
{}
