// The steps of a call: its checks, and its steps where nothing refuses them.
ghost use Rattle.std.specs.Prelude.{◌≡◌, false, length};
ghost use Rattle.scheme.specs.Refusals.{wrong_length, block_refusal};
ghost use Rattle.scheme.specs.Calls.{block, block_in_place};
ghost use Rattle.scheme.specs.Calls as Calls;
ghost use Rattle.turns.specs.Turns.{turn_after, older_of, newer_of};
ghost use Rattle.steps.specs.Steps.{Played};
ghost use Rattle.steps.specs.Left.{Opens, LeftFrom, LeftInTurn, LeftInPlace};

use crate::layout::Layout;
use crate::play::{Steps, play};
use block_checks::block_refusal;
use plans::make_plan;
use slices::clear;
use stretches::PIECE;
use turns::{Turn, ending};
use types::{BlockAnswer, Hit, Instrument, Refusal};

// What the steps of a call that is carried out tell: its answer, and the turn that the slices are in.
#[derive(Clone, Copy)]
pub struct InTurn {
    pub answer: BlockAnswer,
    pub turn: Turn,
}

// The steps of a block that 1 to 12 let pass: of three levels from their first turn, of two from theirs. Samples, pick and hit stay
// parameters of their own, since each clause names each of them by itself.
fn begin(
    i: Instrument,
    older: &mut [i64],
    newer: &mut [i64],
    work: &mut [i64],
    samples: &mut [i16],
    pick: usize,
    hit: Option<Hit>,
    first: Turn,
) -> Steps
    requires { (block_refusal i older.old newer.old false pick hit ≡ Ok tt) × Opens i.grid work.old first }
    ensures { Played (Calls.play i pick hit older.old newer.old samples.old)
        (length samples.old) result (older_of result.turn older.new newer.new work.new)
        (newer_of result.turn older.new newer.new work.new) samples.new
        × (result.turn ≡ turn_after first result.done) }
{
    let mut edges = [0u16; 128];
    let layout = Layout::new(make_plan(i), &mut edges);
    clear(work);
    play(&layout, older, newer, work, samples, pick, hit, first)
}

// The steps of a block from turn `first`, or what refuses them: `wrong` tells that the third slice has a wrong length, which is asked of
// three levels alone. The others are those of `begin`.
fn steps_from(
    i: Instrument,
    older: &mut [i64],
    newer: &mut [i64],
    work: &mut [i64],
    samples: &mut [i16],
    pick: usize,
    hit: Option<Hit>,
    wrong: bool,
    first: Turn,
) -> Result<InTurn, Refusal>
    requires { (block_refusal i older.old newer.old wrong pick hit ≡ Ok tt) → Opens i.grid work.old first }
    ensures { LeftFrom first (block_refusal i older.old newer.old wrong pick hit)
        (Calls.play i pick hit older.old newer.old samples.old)
        older.old newer.old work.old samples.old
        result older.new newer.new work.new samples.new }
{
    block_refusal(i, older, newer, wrong, pick, hit)?;
    let steps = begin(i, older, newer, work, samples, pick, hit, first);
    let answer = BlockAnswer {
        steps: steps.done,
        inexact: steps.inexact,
        outcome: ending(steps.done, samples.len()),
    };
    Ok(InTurn {
        answer,
        turn: steps.turn,
    })
}

// As many steps as samples has places, the hit in the first, each level left in the slice that the turn tells; or what refuses them.
// Its parameters are those of a block.
// Ruled out: every sample put in the first place; a level put in place though its last point passes the ceiling.
pub fn steps_in_turn(
    i: Instrument,
    older: &mut [i64],
    newer: &mut [i64],
    work: &mut [i64],
    samples: &mut [i16],
    pick: usize,
    hit: Option<Hit>,
) -> Result<InTurn, Refusal>
    ensures { LeftInTurn
        (block_refusal i older.old newer.old (wrong_length i.grid (length work.old)) pick hit)
        (block i older.old newer.old work.old samples.old pick hit)
        result older.new newer.new work.new samples.new }
{
    let wrong = work.len() != older.len();
    steps_from(
        i,
        older,
        newer,
        work,
        samples,
        pick,
        hit,
        wrong,
        Turn::First,
    )
}

// The same on two levels: no third one is lent.
// Ruled out: older written over though a later point passes the ceiling; two levels that keep their turn after a step.
pub fn steps_in_place(
    i: Instrument,
    older: &mut [i64],
    newer: &mut [i64],
    samples: &mut [i16],
    pick: usize,
    hit: Option<Hit>,
) -> Result<InTurn, Refusal>
    ensures { LeftInPlace (block_refusal i older.old newer.old false pick hit)
        (block_in_place i older.old newer.old samples.old pick hit)
        result older.new newer.new samples.new }
{
    let mut piece = [0i64; PIECE];
    steps_from(
        i,
        older,
        newer,
        &mut piece,
        samples,
        pick,
        hit,
        false,
        Turn::There,
    )
}
