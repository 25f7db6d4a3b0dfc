// Fixed or moving: the moving columns of a straight row, by its kind, and the fixed points of a round membrane.
ghost use Rattle.std.specs.Prelude.{◌≡◌, ◌&&◌, ◌≤◌, ◌<◌};
ghost use Rattle.scheme.specs.Instruments.{round_edge};
ghost use Rattle.kinds.specs.Runs.{inner_run, on_square, straight_run};

use types::Grid;

// The columns a with from ≤ a < to. A Range is not Copy, as this is and what holds it.
#[derive(Clone, Copy)]
pub struct Run {
    pub from: usize,
    pub to: usize,
}

impl Run {
    pub const NONE: Run = Run { from: 0, to: 0 };
}

// Whether column a of row b is at the edge of a round membrane of c columns.
// 4a(c − 1 − a) is what (2a − c + 1)² lacks of (c − 1)²: by it the test has no sign, and takes no branch.
fn is_round_edge(c: usize, a: usize, b: usize) -> bool
    requires { (c ≤ 64) × (a < c) × (b < c) }
    ensures { result ≡ round_edge c a b }
{
    let last = c - 1;
    4 * a * (last - a) <= last * last - 4 * b * (last - b)
}

// Whether a membrane of c columns and rows, of 64 at most, has column a and row b.
fn is_on_square(c: usize, a: usize, b: usize) -> bool
    ensures { result ≡ on_square c a b }
{
    c <= 64 && a < c && b < c
}

// Whether column a of row b is a fixed point of a round membrane of c columns, of 64 at most.
// Ruled out: > for ≥ at the round edge; a column past the last.
pub fn is_round_fixed(c: usize, a: usize, b: usize) -> bool
    ensures { result ≡ (on_square c a b && round_edge c a b) }
{
    is_on_square(c, a, b) && is_round_edge(c, a, b)
}

// A row of a rectangular membrane or of a plate.
#[tactic(auto, unfolding(crate::specs::Runs::inner_run))]
fn inner_run(g: Grid, row: usize) -> Run
    requires { (1 ≤ g.columns) × (row < g.rows) }
    ensures { result ≡ inner_run g.columns g.rows row }
{
    if row == 0 || row + 1 == g.rows {
        Run::NONE
    } else {
        Run {
            from: 1,
            to: g.columns - 1,
        }
    }
}

// A row of a grid that is not round, whatever its size: by a match over the kind's number, as the paper names it.
// Ruled out: the last column of kind 2 taken as fixed; the outer ring of kind 5 forgotten in its last row.
#[tactic(auto, unfolding(crate::specs::Runs::straight_run, crate::specs::Runs::run_in, types::specs::Numbers::kind_of))]
pub fn straight_run(g: Grid, row: usize) -> Run
    ensures { result ≡ straight_run g row }
{
    let c = g.columns;
    if c == 0 || g.rows <= row {
        return Run::NONE;
    }
    match g.kind {
        Grid::STRING_FIXED | Grid::BAR => Run { from: 1, to: c - 1 },
        Grid::STRING_FIXED_FREE => Run { from: 1, to: c },
        Grid::STRING_FREE => Run { from: 0, to: c },
        Grid::MEMBRANE_RECTANGULAR | Grid::PLATE => inner_run(g, row),
        _ => Run::NONE,
    }
}
