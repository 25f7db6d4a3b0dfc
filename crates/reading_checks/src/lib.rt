// What refuses a reading: its grid, what is lent, then the state of its level.
#![tactic(auto)]

ghost use Rattle.std.specs.Prelude.{◌≡◌};
ghost use Rattle.scheme.specs.Step.{some_beyond};
ghost use Rattle.scheme.specs.Refusals.{lowest, state_checks, reading_refusal};
ghost use Rattle.levels.specs.Levels.{unfixed};

use instruments::{grid_refusal, wrong_length};
use levels::{is_unfixed, some_beyond};
use types::{Grid, Outcome, Refusal};

// 11 and 12 of one level. Of two, 11 of both comes before 12 of either: `state_refusal` of block_checks.
fn level_refusal(g: Grid, xs: &[i64]) -> Outcome
    ensures { result ≡ lowest (state_checks (some_beyond xs.now) (unfixed g xs.now)) }
{
    if some_beyond(xs) {
        return Err(Refusal::PointBeyond);
    }
    if is_unfixed(g, xs) {
        return Err(Refusal::FixedNotZero);
    }
    Ok(())
}

// The float reading's 1, 2, 6, 9, 11 and 12. Ruled out: membranes not read; the pick-up taken for the length.
#[tactic(auto, using(crate::proofs::ReadingLaws::unfixed_same), unfolding(scheme::specs::Refusals::reading_refusal))]
pub fn reading_refusal(g: Grid, newer: &[i64], pick: usize) -> Outcome
    ensures { result ≡ reading_refusal g newer.now pick }
{
    grid_refusal(g, Grid::LAST)?;
    if wrong_length(g, newer.len()) {
        return Err(Refusal::WrongLength);
    }
    if newer.len() <= pick {
        return Err(Refusal::PickUp);
    }
    level_refusal(g, newer)
}
