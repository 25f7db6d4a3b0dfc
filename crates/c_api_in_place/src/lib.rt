// The block on two levels for C. It is a library of its own: compiled alone, its steps have no code of the block on three levels.
// host/include/buvcsolta.h declares the function. Numbers and flags come one by one, and answers go to lent places: so is the C interface.
#![tactic(auto)]

ghost use Rattle.std.specs.Prelude.{◌≡◌};
ghost use Rattle.c_api_in_place.specs.Exports as Exports;

use engine::{block_in_place, number_of};
use packing::{hit_of, instrument_of};

// A block on two levels. Ruled out: the count of steps not told; the levels lent in each other's place.
#[unsafe(no_mangle)]
pub extern "C" fn buvcsolta_block_in_place(
    kind: u64,
    columns: usize,
    rows: usize,
    q: u64,
    m: u64,
    s: u64,
    older: &mut [i64],
    newer: &mut [i64],
    samples: &mut [i16],
    pick_up: usize,
    hit: u64,
    point: usize,
    force: i64,
    steps: &mut usize,
    inexact: &mut u64,
) -> u64
    ensures { Exports.in_place_left result steps.new inexact.new older.new newer.new
        samples.new
        ≡ Exports.block_in_place kind columns rows q m s older.old newer.old samples.old
        pick_up hit point force }
{
    let i = instrument_of(kind, columns, rows, q, m, s);
    let h = hit_of(hit, point, force);
    let answer = block_in_place(i, older, newer, samples, pick_up, h);
    *steps = answer.steps;
    *inexact = answer.inexact;
    number_of(answer.outcome)
}
