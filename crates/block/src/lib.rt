// A block: as many steps of an instrument as the lent sample buffer has places, on three lent levels or on two.
#![tactic(auto)]

mod settling;

ghost use Rattle.std.specs.Prelude.{◌≡◌, MatchResult};
ghost use Rattle.scheme.specs.Calls.{block, block_left, block_in_place, in_place_left};

use crate::settling::settle;
use slices::clear;
use steps::{InTurn, steps_in_place, steps_in_turn};
use types::{BlockAnswer, Hit, Instrument, Refusal};

// What a call answers by what its steps tell: a refused one has done none.
fn answered(told: Result<InTurn, Refusal>) -> BlockAnswer
    ensures { MatchResult told (λ t. result ≡ t.answer) (λ x. result ≡ record { steps = 0; inexact = 0; outcome = Err x }) }
{
    match told {
        Ok(done) => done.answer,
        Err(refusal) => BlockAnswer {
            steps: 0,
            inexact: 0,
            outcome: Err(refusal),
        },
    }
}

// As many steps as samples has places, the hit in the first; or what refuses them.
// Ruled out: a count that does not match the levels; levels never touched.
pub fn block(
    i: Instrument,
    older: &mut [i64],
    newer: &mut [i64],
    work: &mut [i64],
    samples: &mut [i16],
    pick: usize,
    hit: Option<Hit>,
) -> BlockAnswer
    ensures { block_left result older.new newer.new work.new samples.new
        ≡ block i older.old newer.old work.old samples.old pick hit }
{
    let told = steps_in_turn(i, older, newer, work, samples, pick, hit);
    if let Ok(done) = told {
        settle(older, newer, work, done.turn);
        clear(work);
    }
    answered(told)
}

// The same on two levels. No point is overwritten by a step that would put one beyond the ceiling.
// Ruled out: the inexact points not told; the levels taken in each other's place.
pub fn block_in_place(
    i: Instrument,
    older: &mut [i64],
    newer: &mut [i64],
    samples: &mut [i16],
    pick: usize,
    hit: Option<Hit>,
) -> BlockAnswer
    ensures { in_place_left result older.new newer.new samples.new
        ≡ block_in_place i older.old newer.old samples.old pick hit }
{
    let left = steps_in_place(i, older, newer, samples, pick, hit);
    if let Ok(done) = left {
        settle(older, newer, &[], done.turn);
    }
    answered(left)
}
