// The next values of a whole level: row by row, and in a row stretch by stretch. A pass puts them into out, or in place, into older itself;
// one that does not write only tests them. `WRITE` and `IN_PLACE` are const parameters: each pass is compiled by itself.
// `SoftGrid` stays a clause: a stiff plate has the other case.
ghost use Rattle.std.specs.Prelude.{◌≡◌, true, false, pos, length};
ghost use Rattle.scheme.specs.Refusals.{too_strong};
ghost use Rattle.steps.specs.Plan.{Ready, SoftGrid};
ghost use Rattle.steps.specs.Run.{Stepping, Placed, Moves};
ghost use Rattle.steps.specs.Pass.{Passable, Passing, Passed, RowRoom};

use crate::basis::Basis;
use crate::layout::Layout;
use crate::pieces::put_piece;
use crate::plates::plate_level;
use plans::Plan;
use stretches::{Stretch, piece_at};
use types::Hit;

impl Basis<'_> {
    // The moving points of a row. Inlined, so that no row copies the factors.
    #[inline(always)]
    fn row_stretches(self, row: Stretch, hit: Option<Hit>, out: &mut [i64]) -> Option<u64>
        requires ready { Placed row (length out.old) }
        requires moves { Moves self.plan.instrument.grid row.from row.to × (too_strong hit ≡ false) × SoftGrid self.plan.instrument }
        ensures { Stepping self.entry.plan.instrument hit row.write row.base self.entry.older.now self.entry.newer.now
            out.old out.new row.from row.to result }
    {
        let mut inexact = 0;
        let mut at = row.from;
        // by `while`: each stretch begins where the one before it ended
        while at < row.to {
            let s = row.stretch_at(hit, at);
            inexact += self.points_run(s, out)?;
            at = s.to;
        }
        Some(inexact)
    }
}

// The moving points of a row, piece by piece: in place each piece is put into older once it is worked out. Older is written between the
// pieces, so that each has a Basis of its own.
fn row_pass<const WRITE: bool, const IN_PLACE: bool>(
    plan: Plan,
    older: &mut [i64],
    newer: &[i64],
    from: usize,
    to: usize,
    hit: Option<Hit>,
    out: &mut [i64],
) -> Option<u64>
    requires ready { Ready plan (pos 0) older.old newer.now × RowRoom IN_PLACE to out.old }
    requires moves { Moves plan.instrument.grid from to × (too_strong hit ≡ false) × SoftGrid plan.instrument }
    ensures { Passing plan.instrument hit WRITE IN_PLACE older.old newer.now out.old
        older.new out.new from to result }
{
    if !WRITE && plan.m == 0 {
        let basis = Basis { plan, older, newer };
        return basis.is_row_within(from, to, hit).then_some(0);
    }
    let mut inexact = 0;
    let mut at = from;
    // by `while`: each piece begins where the one before it ended
    while at < to {
        let piece = piece_at(at, to, WRITE, IN_PLACE);
        let basis = Basis { plan, older, newer };
        let n = basis.row_stretches(piece, hit, out)?;
        put_piece::<IN_PLACE>(out, piece, older);
        inexact += n;
        at = piece.to;
    }
    Some(inexact)
}

// Every moving point, row by row. Off a line there is no stiffness.
fn level_run<const WRITE: bool, const IN_PLACE: bool>(
    layout: &Layout<'_>,
    older: &mut [i64],
    newer: &[i64],
    out: &mut [i64],
    hit: Option<Hit>,
) -> Option<u64>
    requires passable { Passable layout.now.plan hit IN_PLACE older.old newer.now out.old }
    requires soft { SoftGrid layout.now.plan.instrument }
    ensures { Passed layout.now.plan.instrument hit WRITE IN_PLACE older.old newer.now out.old
        older.new out.new result }
{
    let plan = layout.plan;
    let mut inexact = 0;
    for row in 0..plan.instrument.grid.rows {
        let from = layout.edges[row] as usize;
        let to = layout.edges[64 + row] as usize;
        inexact += row_pass::<WRITE, IN_PLACE>(plan, older, newer, from, to, hit, out)?;
    }
    Some(inexact)
}

// The next level, worked out beside the two, tested in place or written in place. Off a line only a plate is stiff.
pub(crate) fn next_level<const WRITE: bool, const IN_PLACE: bool>(
    layout: &Layout<'_>,
    older: &mut [i64],
    newer: &[i64],
    out: &mut [i64],
    hit: Option<Hit>,
) -> Option<u64>
    requires { Passable layout.now.plan hit IN_PLACE older.old newer.now out.old }
    ensures { Passed layout.now.plan.instrument hit WRITE IN_PLACE older.old newer.now out.old
        older.new out.new result }
{
    let plan = layout.plan;
    if plan.m != 0 && plan.instrument.grid.rows != 1 {
        if hit.is_none() {
            return plate_level::<WRITE, IN_PLACE, false>(plan, older, newer, out, hit);
        }
        return plate_level::<WRITE, IN_PLACE, true>(plan, older, newer, out, hit);
    }
    level_run::<WRITE, IN_PLACE>(layout, older, newer, out, hit)
}
