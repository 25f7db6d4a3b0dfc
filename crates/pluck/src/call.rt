// The call by the table T: its checks, and both levels. A call by a lent table shares them.
ghost use Rattle.std.specs.Prelude.{◌≡◌, length};
ghost use Rattle.scheme.specs.Refusals.{pluck_refusal};
ghost use Rattle.scheme.specs.Pluck.{pluck_level};
ghost use Rattle.scheme.specs.Calls.{pluck_left};
ghost use Rattle.scheme.specs.Calls as Calls;

use crate::shape::Shape;
use crate::table::{TABLE, Table};
use checks::Pluck;
use kinds::straight_run;
use slices::copy;
use types::{Grid, Outcome};

// A pluck that nothing refuses, carried out by any table that keeps the rule of a shape.
pub(crate) fn carry_out(p: Pluck, table: Table<'_>, older: &mut [i64], newer: &mut [i64])
    requires { pluck_refusal p.grid (length older.old) (length newer.old) p.centre p.half_width p.height ≡ Ok tt }
    ensures { (older.new ≡ pluck_level table.entry.entries.now p.grid p.centre p.half_width p.height)
        × (newer.new ≡ pluck_level table.entry.entries.now p.grid p.centre p.half_width p.height) }
{
    let run = straight_run(p.grid, 0);
    let shape = Shape {
        table,
        run,
        centre: p.centre,
        width: p.half_width,
        height: p.height,
    };
    shape.fill(older);
    copy(older, newer);
}

// Both levels overwritten with the shape of the pluck; or what refuses it, and both as they were. Its parameters are C's, as a block's are.
// Ruled out: newer left as it was; the index of the table taken with 1023 for 1024; a refused pluck answered as carried out.
#[tactic(auto, unfolding(scheme::specs::Calls::pluck, scheme::specs::Calls::pluck_by))]
pub fn pluck(
    g: Grid,
    older: &mut [i64],
    newer: &mut [i64],
    centre: usize,
    half_width: usize,
    height: i64,
) -> Outcome
    ensures { pluck_left result older.new newer.new
        ≡ Calls.pluck g older.old newer.old centre half_width height }
{
    let p = Pluck {
        grid: g,
        centre,
        half_width,
        height,
    };
    p.refusal(older.len(), newer.len())?;
    let table = Table {
        entries: &TABLE,
        last: 1024,
    };
    carry_out(p, table, older, newer);
    Ok(())
}
