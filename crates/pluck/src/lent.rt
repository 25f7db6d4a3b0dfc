// The call by a lent table: what refuses any pluck, then the table.
ghost use Rattle.std.specs.Prelude.{◌≡◌};
ghost use Rattle.scheme.specs.Calls.{pluck_left};
ghost use Rattle.scheme.specs.Calls as Calls;

use crate::call::carry_out;
use crate::table::Table;
use checks::Pluck;
use pluck_table::load_table;
use types::{Grid, Outcome, Refusal};

// As `pluck`, by a lent table, which is looked at in each call that nothing else refuses. Ruled out: a broken table answered as carried
// out; by the definition, T in place of the lent table, and 14 before 10.
#[tactic(auto, using(crate::proofs::CallLaws::by_parts), unfolding(scheme::specs::Calls::pluck_with, scheme::specs::Calls::pluck_by))]
pub fn pluck_with(
    g: Grid,
    older: &mut [i64],
    newer: &mut [i64],
    centre: usize,
    half_width: usize,
    height: i64,
    table: &[u32],
) -> Outcome
    ensures { pluck_left result older.new newer.new
        ≡ Calls.pluck_with g older.old newer.old centre half_width height table.now }
{
    let p = Pluck {
        grid: g,
        centre,
        half_width,
        height,
    };
    p.refusal(older.len(), newer.len())?;
    let Some(last) = load_table(table) else {
        return Err(Refusal::BrokenTable);
    };
    let table = Table {
        entries: table,
        last,
    };
    carry_out(p, table, older, newer);
    Ok(())
}
