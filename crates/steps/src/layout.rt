// A plan laid out over the rows of its grid.
ghost use Rattle.std.specs.Prelude.{◌≡◌};
ghost use Rattle.steps.specs.Plan.{Planned};
ghost use Rattle.steps.specs.Edges.{EdgesOf};

use edges::row_edges;
use plans::Plan;

// A plan, and the moving points of every row of its grid: those of row r begin at edges[r], and end before edges[64 + r].
// The edges are lent: held by value they would be moved by `memcpy`, which a board without a C library lacks.
#[derive(Clone, Copy)]
pub(crate) struct Layout<'a> {
    pub(crate) plan: Plan,
    pub(crate) edges: &'a [u16; 128],
    ghost edges_of: { EdgesOf plan.instrument.grid edges.now },
}

impl<'a> Layout<'a> {
    pub(crate) fn new(plan: Plan, edges: &'a mut [u16; 128]) -> Layout<'a>
        requires { Planned plan }
        ensures { result.plan ≡ plan }
    {
        row_edges(plan.instrument.grid, edges);
        Layout { plan, edges }
    }
}
