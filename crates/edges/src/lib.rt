// The moving points of every row: worked out once, for all the steps of a block.
#![tactic(auto)]

ghost use Rattle.std.specs.Prelude.{◌≡◌, ◌<◌};
ghost use Rattle.edges.specs.Edges.{edges_of, point_at};

use runs::row_run;
use types::Grid;

// The point in a column of a row, in 16 bits.
#[tactic(auto, using(crate::proofs::EdgeLaws::point_at_lem))]
fn point_at(columns: usize, row: usize, column: usize) -> u16
    requires { row < 64 }
    ensures { result ≡ point_at columns row column }
{
    ((row * (columns % 65536) + column % 65536) % 65536) as u16
}

// For each row that has a place its first moving point, and 64 places on the point after its last: one array, whose places the definition
// `edges_of` counts. Of 64 pairs it would be no shorter.
// Ruled out: every row taken as the first; the first point put for the point after the last.
pub fn row_edges(g: Grid, edges: &mut [u16; 128])
    ensures { edges.new ≡ edges_of g edges.old }
{
    for row in 0..g.rows.min(64) {
        let run = row_run(g, row);
        edges[row] = point_at(g.columns, row, run.from);
        edges[64 + row] = point_at(g.columns, row, run.to);
    }
}
