// Slices in turn: older, newer, and the one that the next level is put into. After a step newer is older, the next level is newer.
// Of two levels the third slice has room for a piece of a row.
ghost use Rattle.std.specs.Prelude.{◌≡◌, ◌≤◌, ◌<◌, length};
ghost use Rattle.types.specs.Numbers.{ceiling};
ghost use Rattle.scheme.specs.Lists.{point};
ghost use Rattle.scheme.specs.Step.{sample_of};
ghost use Rattle.stretches.specs.Pieces.{piece};
ghost use Rattle.steps.specs.Plan.{AtMost};
ghost use Rattle.turns.specs.Turns.{out_of};
ghost use Rattle.steps.specs.Steps.{Steppable, Begins, SteppedInPlace, SteppedIn};

use crate::arithmetic::sample;
use crate::layout::Layout;
use crate::level::next_level;
use slices::copy;
use stretches::PIECE;
use turns::Turn;
use types::Hit;

// A step of two levels that have no more points than a piece: the next level is worked out beside them, then copied to older.
fn small_step(
    layout: &Layout<'_>,
    older: &mut [i64],
    newer: &[i64],
    room: &mut [i64],
    hit: Option<Hit>,
) -> Option<u64>
    requires { Steppable layout.now.plan hit older.old newer.now older.old × (length room.old ≡ length older.old) }
    ensures { SteppedInPlace layout.now.plan.instrument hit older.old newer.now older.new result }
{
    copy(older, room);
    let inexact = next_level::<true, false>(layout, older, newer, room, hit)?;
    copy(room, older);
    Some(inexact)
}

// A step of two levels: no point of older is written unless every next value lies within the ceiling.
fn step_in_place(
    layout: &Layout<'_>,
    older: &mut [i64],
    newer: &[i64],
    room: &mut [i64],
    hit: Option<Hit>,
) -> Option<u64>
    requires { Steppable layout.now.plan hit older.old newer.now older.old × (piece ≤ length room.old) }
    ensures { SteppedInPlace layout.now.plan.instrument hit older.old newer.now older.new result }
{
    let n = older.len();
    if n <= PIECE {
        return small_step(layout, older, newer, &mut room[..n], hit);
    }
    next_level::<false, true>(layout, older, newer, room, hit)?;
    next_level::<true, true>(layout, older, newer, room, hit)
}

// A step in the turn that the slices are in, by a match: each arm hands them over in an order of its own. They stay three parameters: lent
// on as fields of a struct they are not covered by the borrow checker.
pub(crate) fn step_in_turn(
    layout: &Layout<'_>,
    older: &mut [i64],
    newer: &mut [i64],
    work: &mut [i64],
    hit: Option<Hit>,
    turn: Turn,
) -> Option<u64>
    requires { Begins turn layout.now.plan hit older.old newer.old work.old }
    ensures { SteppedIn turn layout.now.plan.instrument hit older.old newer.old work.old
        older.new newer.new work.new result }
{
    match turn {
        Turn::First => next_level::<true, false>(layout, older, newer, work, hit),
        Turn::Second => next_level::<true, false>(layout, newer, work, older, hit),
        Turn::Last => next_level::<true, false>(layout, work, older, newer, hit),
        Turn::There => step_in_place(layout, older, newer, work, hit),
        Turn::Exchanged => step_in_place(layout, newer, older, work, hit),
    }
}

// The sample of the level that a step has put into its slice, by a match: each turn has put it into another.
pub(crate) fn sample_in_turn(
    older: &[i64],
    newer: &[i64],
    work: &[i64],
    pick: usize,
    turn: Turn,
) -> i16
    requires { (pick < length (out_of turn older.now newer.now work.now))
        × AtMost ceiling (point (out_of turn older.now newer.now work.now)) }
    ensures { result ≡ sample_of (point (out_of turn older.now newer.now work.now) pick) }
{
    let next = match turn {
        Turn::First => work,
        Turn::Second | Turn::There => older,
        Turn::Last | Turn::Exchanged => newer,
    };
    sample(next[pick])
}
