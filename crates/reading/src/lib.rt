// The float reading: the point of a level that a pick-up reads, as an f64.
#![tactic(auto)]

ghost use Rattle.std.specs.Prelude.{◌≡◌, ◌≤◌, nat_abs};
ghost use Rattle.types.specs.Numbers.{ceiling};
ghost use Rattle.scheme.specs.Step.{float_of};
ghost use Rattle.scheme.specs.Calls as Calls;

use reading_checks::reading_refusal;
use types::{Grid, Refusal};

// The value of a point over 2⁴³.
fn float_of(v: i64) -> f64
    requires { nat_abs v ≤ ceiling }
    ensures { result ≡ float_of v }
{
    (v as f64) / 8796093022208.0
}

// The reading of newer at a pick-up, or what refuses it.
// Ruled out: the point divided by 2⁴²; a refused reading that answers a value.
#[tactic(auto, using(crate::proofs::ReadingLaws::in_level, crate::proofs::ReadingLaws::low), unfolding(scheme::specs::Calls::reading))]
pub fn reading(g: Grid, newer: &[i64], pick: usize) -> Result<f64, Refusal>
    ensures { result ≡ Calls.reading g newer.now pick }
{
    reading_refusal(g, newer, pick)?;
    Ok(float_of(newer[pick]))
}

// The value of an answer, +0.0 where it is a refusal.
// Ruled out: a refused reading's value 1; the value of an accepted reading forgotten.
#[tactic(auto, using(crate::proofs::ReadingLaws::zero))]
pub fn reading_value(answer: Result<f64, Refusal>) -> f64
    ensures { result ≡ Calls.reading_value answer }
{
    answer.unwrap_or(0.0)
}
