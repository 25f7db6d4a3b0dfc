// What goes by the kind: sizes, and limits of stability.
#![tactic(auto)]

ghost use Rattle.std.specs.Prelude.{◌≡◌};
ghost use Rattle.types.specs.Numbers.{kind_of};
ghost use Rattle.scheme.specs.Instruments.{grid_size, in_table, line_size, stable_in, within};
ghost use Rattle.sizes.specs.Sizes.{points_of};

use types::{Grid, Kind, Settings};

// Whether a ≤ n ≤ b: in one place, by the definition `within`. Ruled out: a itself outside; b itself outside.
pub fn is_within(a: usize, b: usize, n: usize) -> bool
    ensures { result ≡ within a b n }
{
    (a..=b).contains(&n)
}

// Whether there are 3..1024 columns and one row.
fn is_line(g: Grid) -> bool
    ensures { result ≡ line_size g.columns g.rows }
{
    is_within(3, 1024, g.columns) && g.rows == 1
}

// Whether there are 3..64 columns and 3..64 rows.
fn is_rectangle(g: Grid) -> bool
    ensures { result ≡ grid_size g.columns g.rows }
{
    is_within(3, 64, g.columns) && is_within(3, 64, g.rows)
}

// Whether the table has these columns and rows for the kind.
// Ruled out: two columns; 65 columns of kind 5; only square plates.
#[tactic(auto, unfolding(scheme::specs::Instruments::size_in))]
pub fn has_size(g: Grid) -> bool
    ensures { result ≡ in_table g }
{
    match Kind::from(g.kind) {
        Kind::Unknown => false,
        Kind::StringFixed | Kind::StringFixedFree | Kind::StringFree | Kind::Bar => is_line(g),
        Kind::MembraneRectangular | Kind::Plate => is_rectangle(g),
        Kind::MembraneRound => is_within(3, 64, g.columns) && g.rows == g.columns,
    }
}

// columns × rows, or 0 where the table does not have the size.
// Ruled out: columns × columns; a point where the table does not have the size.
pub fn points_of(g: Grid) -> usize
    ensures { result ≡ points_of g }
{
    if has_size(g) { g.columns * g.rows } else { 0 }
}

// 5: whether the kind is stable with q and m. The kind is a number, as in Grid: an unknown one is not.
// Ruled out: kind 4 stable by q + 3m; 2q = D refused for kind 5; a plate stable by 2q + 15m.
#[tactic(auto, using(crate::proofs::KindLaws::q_past, crate::proofs::KindLaws::m_past), unfolding(scheme::specs::Instruments::stable_in))]
pub fn is_stable(kind: u64, q: u64, m: u64) -> bool
    ensures { result ≡ stable_in (kind_of kind) q m }
{
    // past D no kind is stable, and up to D no sum wraps
    if Settings::D < q || Settings::D < m {
        return false;
    }
    match Kind::from(kind) {
        Kind::Unknown => false,
        Kind::StringFixed | Kind::StringFixedFree | Kind::StringFree => m == 0,
        Kind::Bar => q + 4 * m <= Settings::D,
        Kind::MembraneRectangular | Kind::MembraneRound => 2 * q <= Settings::D && m == 0,
        Kind::Plate => 2 * q + 16 * m <= Settings::D,
    }
}
