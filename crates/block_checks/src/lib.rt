// What refuses a block: its input first, then the state of its levels.
#![tactic(auto)]

ghost use Rattle.std.specs.Prelude.{◌≡◌, ◌||◌};
ghost use Rattle.scheme.specs.Refusals.{block_refusal};
ghost use Rattle.instruments.specs.Refused.{not_long};
ghost use Rattle.block_checks.specs.State.{state_refusal};

use checks::input_refusal;
use instruments::wrong_length;
use levels::{is_unfixed, some_beyond};
use types::{Grid, Hit, Instrument, Outcome, Refusal};

// 11 and 12 of two levels.
#[tactic(auto, unfolding(crate::specs::State::state_refusal))]
fn state_refusal(g: Grid, older: &[i64], newer: &[i64]) -> Outcome
    ensures { result ≡ state_refusal g older.now newer.now }
{
    if some_beyond(older) || some_beyond(newer) {
        return Err(Refusal::PointBeyond);
    }
    if is_unfixed(g, older) || is_unfixed(g, newer) {
        return Err(Refusal::FixedNotZero);
    }
    Ok(())
}

// 6 of two levels by their lengths, and of what else is lent, as `block_refusal` is told of it.
// One length is compared with the grid, the other with that one.
fn wrong_lengths(g: Grid, older: usize, newer: usize, wrong: bool) -> bool
    ensures { result ≡ (not_long g older || not_long g newer || wrong) }
{
    wrong_length(g, older) || newer != older || wrong
}

// A block's 1, 2, 4 to 9, 11 and 12: `wrong` is 6's test of what is lent beside the two levels, which the blocks differ in. Its parameters
// are those of the definition `block_refusal`.
// Ruled out: the length of newer not looked at; work of any length; 11 not asked of older; 12 not asked of older.
#[tactic(auto, using(crate::proofs::BlockLaws::by_parts))]
pub fn block_refusal(
    i: Instrument,
    older: &[i64],
    newer: &[i64],
    wrong: bool,
    pick: usize,
    h: Option<Hit>,
) -> Outcome
    ensures { result ≡ block_refusal i older.now newer.now wrong pick h }
{
    let wrong = wrong_lengths(i.grid, older.len(), newer.len(), wrong);
    input_refusal(i, wrong, pick, h)?;
    state_refusal(i.grid, older, newer)
}
