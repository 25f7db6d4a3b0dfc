// The moving columns of a row of any kind, and whether a point moves.
#![tactic(auto)]

ghost use Rattle.std.specs.Prelude.{◌≡◌, ◌&&◌, ◌≤◌, ◌<◌};
ghost use Rattle.scheme.specs.Instruments.{in_table, moving};
ghost use Rattle.kinds.specs.Runs.{in_run, round_run, row_run};

use kinds::{Run, is_round_fixed, straight_run};
use sizes::has_size;
use types::Grid;

// Row b of a round membrane of c columns: from its first moving column, and as far from the right.
fn round_run(c: usize, b: usize) -> Run
    requires { (c ≤ 64) × (b < c) }
    ensures { result ≡ round_run c b }
{
    for a in 0..c {
        if !is_round_fixed(c, a, b) {
            return Run { from: a, to: c - a };
        }
    }
    Run::NONE
}

// A row of a grid of any kind, by a match over the kind's number, as the paper names it. Of a grid of the table it is the row's run;
// the size is not tested again.
// Ruled out: kind 5 taken as the round one; the rows taken for the columns.
#[tactic(auto, unfolding(types::specs::Numbers::kind_of))]
pub fn row_run(g: Grid, row: usize) -> Run
    ensures { result ≡ row_run g row }
{
    match g.kind {
        Grid::MEMBRANE_ROUND if g.columns <= 64 && row < g.columns => round_run(g.columns, row),
        Grid::MEMBRANE_ROUND => Run::NONE,
        _ => straight_run(g, row),
    }
}

fn is_in(run: Run, a: usize) -> bool
    ensures { result ≡ in_run run a }
{
    (run.from..run.to).contains(&a)
}

// Whether a point moves, by the run of its row; none does where the table does not have the grid's size.
// Ruled out: the row taken for the column; every row judged by the first.
pub fn is_moving(g: Grid, point: usize) -> bool
    ensures { result ≡ (in_table g && moving g point) }
{
    if !has_size(g) {
        return false;
    }
    let row = point / g.columns;
    let column = point % g.columns;
    row < g.rows && is_in(row_run(g, row), column)
}
