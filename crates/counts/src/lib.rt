// Counts that are summed up and held at the largest number.
#![tactic(auto)]

ghost use Rattle.std.specs.Prelude.{◌≡◌, ◌+◌};
ghost use Rattle.scheme.specs.Calls.{capped};

// The sum of two counts, held at 2⁶⁴ − 1, as the definition `capped` says. Ruled out: a sum that begins at 0 again; one held at 2⁶³ − 1.
#[tactic(auto, unfolding(scheme::specs::Calls::capped))]
pub fn capped_sum(a: u64, b: u64) -> u64
    ensures { result ≡ capped (a + b) }
{
    a.saturating_add(b)
}
