// The engine for C: numbers and lent slices in, the refusal's number out. host/include/buvcsolta.h declares these functions.
// A slice arrives as a pointer and a length. Numbers and flags come one by one, and answers go to lent places: so is the C interface.
#![tactic(auto)]

ghost use Rattle.std.specs.Prelude.{◌≡◌};
ghost use Rattle.c_api.specs.Exports as Exports;

use engine::{
    Grid, block, number_of, pluck, pluck_with, reading, reading_value, settings_for, settings_read,
};
use packing::{hit_of, instrument_of, sheet_of};

// A block. Ruled out: the count of steps not told; the steps told as the inexact points; a hit where its flag is 0 (`hit_of`).
#[unsafe(no_mangle)]
pub extern "C" fn buvcsolta_block(
    kind: u64,
    columns: usize,
    rows: usize,
    q: u64,
    m: u64,
    s: u64,
    older: &mut [i64],
    newer: &mut [i64],
    work: &mut [i64],
    samples: &mut [i16],
    pick_up: usize,
    hit: u64,
    point: usize,
    force: i64,
    steps: &mut usize,
    inexact: &mut u64,
) -> u64
    ensures { Exports.block_left result steps.new inexact.new older.new newer.new
        work.new samples.new
        ≡ Exports.block kind columns rows q m s older.old newer.old work.old samples.old
        pick_up hit point force }
{
    let i = instrument_of(kind, columns, rows, q, m, s);
    let h = hit_of(hit, point, force);
    let answer = block(i, older, newer, work, samples, pick_up, h);
    *steps = answer.steps;
    *inexact = answer.inexact;
    number_of(answer.outcome)
}

// A pluck. Ruled out: the centre taken for the half width; columns and rows exchanged (`Grid::new`).
#[unsafe(no_mangle)]
pub extern "C" fn buvcsolta_pluck(
    kind: u64,
    columns: usize,
    rows: usize,
    older: &mut [i64],
    newer: &mut [i64],
    centre: usize,
    half_width: usize,
    height: i64,
) -> u64
    ensures { Exports.pluck_left result older.new newer.new
        ≡ Exports.pluck kind columns rows older.old newer.old centre half_width height }
{
    let g = Grid::new(kind, columns, rows);
    number_of(pluck(g, older, newer, centre, half_width, height))
}

// A pluck by a lent table. Ruled out: the centre taken for the half width; columns and rows exchanged (`Grid::new`).
#[unsafe(no_mangle)]
pub extern "C" fn buvcsolta_pluck_with(
    kind: u64,
    columns: usize,
    rows: usize,
    older: &mut [i64],
    newer: &mut [i64],
    centre: usize,
    half_width: usize,
    height: i64,
    table: &[u32],
) -> u64
    ensures { Exports.pluck_left result older.new newer.new
        ≡ Exports.pluck_with kind columns rows older.old newer.old centre half_width height
        table.now }
{
    let g = Grid::new(kind, columns, rows);
    number_of(pluck_with(g, older, newer, centre, half_width, height, table))
}

// The float reading, 0 where it is refused. Ruled out: the value not told; a refused reading's value not 0; columns and rows
// exchanged (`Grid::new`).
#[unsafe(no_mangle)]
pub extern "C" fn buvcsolta_reading(
    kind: u64,
    columns: usize,
    rows: usize,
    newer: &[i64],
    pick_up: usize,
    value: &mut f64,
) -> u64
    ensures { Exports.reading_left result value.new ≡ Exports.reading kind columns rows newer.now pick_up }
{
    let g = Grid::new(kind, columns, rows);
    let answer = reading(g, newer, pick_up);
    *value = reading_value(answer);
    number_of(answer.map(|_| ()))
}

// The settings of a sheet, zeros where it is refused. Ruled out: q and m exchanged; a refused sheet's settings not all zeros;
// a tension taken as hertz (`sheet_of`).
#[unsafe(no_mangle)]
pub extern "C" fn buvcsolta_sheet(
    kind: u64,
    columns: usize,
    rows: usize,
    rate: f64,
    length: f64,
    bending: f64,
    by_tension: u64,
    speed: f64,
    density: f64,
    by_seconds: u64,
    loss: f64,
    q: &mut u64,
    m: &mut u64,
    s: &mut u64,
) -> u64
    ensures { Exports.sheet_left result q.new m.new s.new
        ≡ Exports.sheet kind columns rows rate length bending by_tension speed density by_seconds loss }
{
    let g = Grid::new(kind, columns, rows);
    let sheet = sheet_of(
        rate, length, bending, by_tension, speed, density, by_seconds, loss,
    );
    let answer = settings_for(g, sheet);
    let settings = settings_read(answer);
    *q = settings.q;
    *m = settings.m;
    *s = settings.s;
    number_of(answer.map(|_| ()))
}
