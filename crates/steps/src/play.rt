// The steps of a block.
ghost use Rattle.std.specs.Prelude.{◌≡◌, ◌<◌, length};
ghost use Rattle.scheme.specs.Instruments.{points};
ghost use Rattle.scheme.specs.Calls as Calls;
ghost use Rattle.turns.specs.Turns.{turn_after, older_of, newer_of};
ghost use Rattle.steps.specs.Steps.{Begins, Played};

use crate::layout::Layout;
use crate::step::{sample_in_turn, step_in_turn};
use counts::capped_sum;
use turns::{Turn, hit_after};
use types::Hit;

// How many steps were done, how many points were inexact in them, and the turn that the slices are in.
#[derive(Clone, Copy)]
pub(crate) struct Steps {
    pub(crate) done: usize,
    pub(crate) inexact: u64,
    pub(crate) turn: Turn,
}

// A step for each place of samples, until the next would put a point beyond the ceiling. The slices begin in turn `first`. Its parameters
// stay apart, as those of a step and of a block do.
pub(crate) fn play(
    layout: &Layout<'_>,
    older: &mut [i64],
    newer: &mut [i64],
    work: &mut [i64],
    samples: &mut [i16],
    pick: usize,
    hit: Option<Hit>,
    first: Turn,
) -> Steps
    requires { Begins first layout.now.plan hit older.old newer.old work.old × (pick < points layout.now.plan.instrument.grid) }
    ensures { Played
        (Calls.play layout.now.plan.instrument pick hit (older_of first older.old newer.old work.old)
        (newer_of first older.old newer.old work.old) samples.old)
        (length samples.old) result (older_of result.turn older.new newer.new work.new)
        (newer_of result.turn older.new newer.new work.new) samples.new
        × (result.turn ≡ turn_after first result.done) }
{
    let mut inexact = 0;
    let mut turn = first;
    for (j, place) in samples.iter_mut().enumerate() {
        let h = hit_after(hit, j);
        let Some(n) = step_in_turn(layout, older, newer, work, h, turn) else {
            return Steps {
                done: j,
                inexact,
                turn,
            };
        };
        inexact = capped_sum(inexact, n);
        *place = sample_in_turn(older, newer, work, pick, turn);
        turn = turn.next();
    }
    Steps {
        done: samples.len(),
        inexact,
        turn,
    }
}
