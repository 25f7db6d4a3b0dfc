// Plates with stiffness. The sum of each point's neighbours is worked out once, a row ahead, and kept from row to row.
ghost use Rattle.std.specs.Prelude.{nat_abs, ◌≡◌, true, false, cond, ◌+◌, ◌-◌, ◌≤◌, ◌<◌, pos, length};
ghost use Rattle.types.specs.Numbers.{ceiling};
ghost use Rattle.scheme.specs.Lists.{point};
ghost use Rattle.types.specs.declared.Kind.TheVariants.{Plate};
ghost use Rattle.scheme.specs.Instruments.{kind};
ghost use Rattle.scheme.specs.Refusals.{too_strong};
ghost use Rattle.steps.specs.Plan.{AtMost};
ghost use Rattle.steps.specs.Run.{all_within, Filled, Advanced, Stepping, Placed, four_beside};
ghost use Rattle.steps.specs.Pass.{Passable, Passed};
ghost use Rattle.steps.specs.Plates.{TwoRows, InRow, Readable, second_at, moving_in};

use crate::arithmetic::stiffness;
use crate::basis::Basis;
use crate::neighbours::sum_around;
use crate::pieces::put_piece;
use plans::Plan;
use stretches::{Stretch, is_hit_in};
use types::Hit;

// Where the sums of two rows stand: of column c of the row that begins at point `start` at place here + c; at other + c that of the row
// above it until column c is done, then that of the row below it. `last` tells that the row below is the ring's, whose sums count as 0:
// a flag, since that row has its place either way.
// Both rows lie in one array and are exchanged by their places, so that no sum is moved.
#[derive(Clone, Copy)]
pub(crate) struct SumRows {
    pub(crate) start: usize,
    pub(crate) here: usize,
    pub(crate) other: usize,
    pub(crate) last: bool,
}

// The sums of the first row that is not the ring's, between its ends.
fn put_first(xs: &[i64], columns: usize, place: usize, sums: &mut [i64])
    requires le_columns { (3 ≤ columns) × (columns + columns + columns ≤ length xs.now) × (place + columns ≤ length sums.old) }
    requires at_most { AtMost ceiling (point xs.now) }
    ensures { Filled (λ j. four_beside xs.now columns (columns + (j - place))) true 0 sums.old
        sums.new (place + 1) (place + (columns - 1)) }
{
    let last = columns - 1;
    for c in 1..last {
        sums[place + c] = sum_around(xs, columns + c, columns);
    }
}

// The sum of the neighbours of the point below point `at`, 0 on the ring.
fn sum_below(xs: &[i64], at: usize, columns: usize, last: bool) -> i64
    requires { (1 ≤ columns) × AtMost ceiling (point xs.now) × (last ≡ false → at + columns + columns < length xs.now) }
    ensures { result ≡ cond last (pos 0) (four_beside xs.now columns (at + columns)) }
{
    if last {
        return 0;
    }
    sum_around(xs, at + columns, columns)
}

// The sum of the sums around column c: that of the point below it is given.
fn second_at(sums: &[i64], rows: SumRows, c: usize, below: i64) -> i64
    requires { Readable sums.now rows c below }
    ensures { result ≡ second_at sums.now rows c below }
{
    let here = rows.here + c;
    let above = rows.other + c;
    sums[here - 1] + sums[here + 1] + sums[above] + below
}

impl Basis<'_> {
    // A point of a row. Once it is done, the sum below it stands for the one above it. Rows and sums stay two parameters: the places of a
    // row are made for that row and only read, the sums are written on from row to row.
    fn plate_point(
        self,
        rows: SumRows,
        at: usize,
        s: Stretch,
        sums: &mut [i64],
        out: &mut [i64],
    ) -> Option<u64>
        requires ready { (nat_abs s.force ≤ ceiling) × Placed s (length out.old) × (s.from ≤ at) × (at < s.to) }
        requires two_rows { TwoRows self.plan.instrument.grid self.newer.now sums.old rows at
            × InRow self.plan.instrument.grid rows s.from s.to }
        ensures { Advanced self.entry.plan s self.entry.older.now self.entry.newer.now out.old out.new at (at + 1) result
            × TwoRows self.entry.plan.instrument.grid self.entry.newer.now sums.new rows (at + 1) }
    {
        let c = at - rows.start;
        let below = sum_below(self.newer, at, self.plan.instrument.grid.columns, rows.last);
        let second = second_at(sums, rows, c, below);
        let sum = sums[rows.here + c];
        sums[rows.other + c] = below;
        let stiff = stiffness(self.plan, second, sum, self.newer[at]);
        self.next_point(at, sum, stiff, s, out)
    }

    // Points of a row, one force on all of them: no `soft_run`, since the sums are written on as it goes. Inlined, so that the factors of
    // the step stay in registers.
    #[inline(always)]
    fn plate_run(self, rows: SumRows, s: Stretch, sums: &mut [i64], out: &mut [i64]) -> Option<u64>
        requires ready { (nat_abs s.force ≤ ceiling) × Placed s (length out.old) }
        requires two_rows { TwoRows self.plan.instrument.grid self.newer.now sums.old rows s.from
            × InRow self.plan.instrument.grid rows s.from s.to }
        ensures { Advanced self.entry.plan s self.entry.older.now self.entry.newer.now out.old out.new s.from s.to result
            × (all_within result ≡ true → TwoRows self.entry.plan.instrument.grid self.entry.newer.now sums.new rows s.to) }
    {
        let mut inexact = 0;
        for at in s.from..s.to {
            inexact += self.plate_point(rows, at, s, sums, out)?;
        }
        Some(inexact)
    }

    // The moving points of a row that the hit is among, point by point.
    fn struck_row(
        self,
        rows: SumRows,
        row: Stretch,
        hit: Option<Hit>,
        sums: &mut [i64],
        out: &mut [i64],
    ) -> Option<u64>
        requires ready { Placed row (length out.old) × (too_strong hit ≡ false) }
        requires two_rows { TwoRows self.plan.instrument.grid self.newer.now sums.old rows row.from
            × InRow self.plan.instrument.grid rows row.from row.to }
        ensures { Stepping self.entry.plan.instrument hit row.write row.base self.entry.older.now self.entry.newer.now
            out.old out.new row.from row.to result
            × (all_within result ≡ true → TwoRows self.entry.plan.instrument.grid self.entry.newer.now sums.new rows row.to) }
    {
        let mut inexact = 0;
        for at in row.from..row.to {
            let s = row.stretch_at(hit, at);
            inexact += self.plate_point(rows, at, s, sums, out)?;
        }
        Some(inexact)
    }

    // The moving points of a row, where the hit is not among them by one of two loops, each with `write` a constant. A step without a hit
    // doesn't ask for it. Inlined, so that no row copies the factors.
    #[inline(always)]
    fn plate_row<const STRUCK: bool>(
        self,
        rows: SumRows,
        row: Stretch,
        hit: Option<Hit>,
        sums: &mut [i64],
        out: &mut [i64],
    ) -> Option<u64>
        requires ready { Placed row (length out.old) × (too_strong hit ≡ false) }
        requires force_value { row.force ≡ pos 0 }
        requires unstruck { STRUCK ≡ false → hit ≡ None }
        requires two_rows { TwoRows self.plan.instrument.grid self.newer.now sums.old rows row.from
            × InRow self.plan.instrument.grid rows row.from row.to }
        ensures { Stepping self.entry.plan.instrument hit row.write row.base self.entry.older.now self.entry.newer.now
            out.old out.new row.from row.to result
            × (all_within result ≡ true → TwoRows self.entry.plan.instrument.grid self.entry.newer.now sums.new rows row.to) }
    {
        if STRUCK && is_hit_in(hit, row.from, row.to) {
            return self.struck_row(rows, row, hit, sums, out);
        }
        if row.write {
            return self.plate_run(rows, row.as_written(true), sums, out);
        }
        self.plate_run(rows, row.as_written(false), sums, out)
    }
}

// The moving points of the row that begins at point `start`: all but its ends. Not by `piece_at`, which cuts a line: a row is one piece.
fn moving_in<const WRITE: bool, const IN_PLACE: bool>(start: usize, columns: usize) -> Stretch
    requires { (3 ≤ columns) × (start + columns ≤ 4096) }
    ensures { result ≡ moving_in start columns WRITE IN_PLACE }
{
    let from = start + 1;
    let base = if IN_PLACE { from } else { 0 };
    Stretch {
        from,
        to: start + (columns - 1),
        force: 0,
        base,
        write: WRITE,
    }
}

// Every moving point of a plate. After a row the two places of the sums are exchanged.
pub(crate) fn plate_level<const WRITE: bool, const IN_PLACE: bool, const STRUCK: bool>(
    plan: Plan,
    older: &mut [i64],
    newer: &[i64],
    out: &mut [i64],
    hit: Option<Hit>,
) -> Option<u64>
    requires passable { Passable plan hit IN_PLACE older.old newer.now out.old × (kind plan.instrument.grid ≡ Plate) }
    requires unstruck { STRUCK ≡ false → hit ≡ None }
    ensures { Passed plan.instrument hit WRITE IN_PLACE older.old newer.now out.old
        older.new out.new result }
{
    let columns = plan.instrument.grid.columns;
    let ring = plan.instrument.grid.rows - 1;
    let mut sums = [0i64; 128];
    put_first(newer, columns, 64, &mut sums);
    let mut inexact = 0;
    let mut other = 0;
    let mut here = 64;
    let mut start = columns;
    for row in 1..ring {
        let rows = SumRows {
            start,
            here,
            other,
            last: row + 1 == ring,
        };
        let moving = moving_in::<WRITE, IN_PLACE>(start, columns);
        let basis = Basis { plan, older, newer };
        let n = basis.plate_row::<STRUCK>(rows, moving, hit, &mut sums, out)?;
        put_piece::<IN_PLACE>(out, moving, older);
        inexact += n;
        (here, other) = (other, here);
        start += columns;
    }
    Some(inexact)
}
