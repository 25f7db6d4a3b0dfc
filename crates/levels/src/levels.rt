// What a level's points are refused for: one beyond the ceiling, a fixed one that is not 0.
ghost use Rattle.std.specs.Prelude.{◌≡◌, ◌+◌, ◌*◌, ◌<◌, ◌≤◌, true, length, nat_lt, unsigned_abs};
ghost use Rattle.scheme.specs.Instruments.{beyond, points};
ghost use Rattle.scheme.specs.Step.{some_beyond};
ghost use Rattle.scheme.specs.Refusals.{fixed_not_zero};
ghost use Rattle.scheme.specs.Instruments.{in_table};
ghost use Rattle.levels.specs.Levels.{signed, some_not_zero, row_not_zero, round_not_zero, row_unfixed, unfixed};

use kinds::{Run, is_round_fixed, straight_run};
use sizes::{has_size, points_of};
use types::{Grid, Kind, Settings};

// By two tests, no longer than a range. Ruled out: the ceiling itself taken as beyond; below zero, all but the points beyond.
pub fn is_beyond(v: i64) -> bool
    ensures { result ≡ beyond v }
{
    v < -Settings::CEILING || Settings::CEILING < v
}

// What a number with the sign bit has at least.
const SIGN: u64 = 1 << 63;

// A number with the sign bit where v lies beyond the ceiling: that of v + ceiling or of ceiling − v. It takes no branch.
#[tactic(auto, using(crate::proofs::SignLaws::excess_is))]
fn excess(v: &i64) -> u64
    ensures { signed result ≡ beyond v.now }
{
    let bits = v.cast_unsigned();
    let ceiling = Settings::CEILING as u64;
    bits.wrapping_add(ceiling) | ceiling.wrapping_sub(bits)
}

// All points are looked at, so that the loop has no branch. Ruled out: point 0 left out; every other point left out.
#[tactic(auto, unfolding(scheme::specs::Lists::some_below, scheme::specs::Step::some_beyond))]
pub fn some_beyond(xs: &[i64]) -> bool
    ensures { result ≡ some_beyond xs.now }
{
    let mut signs = 0;
    for v in xs {
        signs |= excess(v);
    }
    SIGN <= signs
}

fn is_not_zero(v: &i64) -> bool
    ensures { result ≡ nat_lt 0 (unsigned_abs v.now) }
{
    *v != 0
}

fn some_not_zero(xs: &[i64]) -> bool
    ensures { result ≡ some_not_zero xs.now }
{
    xs.iter().any(is_not_zero)
}

// Whether some point of a row is not 0, before its run or after it.
fn row_not_zero(row: &[i64], run: Run) -> bool
    requires { (run.from ≤ run.to) × (run.to ≤ length row.now) }
    ensures { result ≡ row_not_zero row.now run }
{
    some_not_zero(&row[..run.from]) || some_not_zero(&row[run.to..])
}

// Whether some fixed point of row b of a round membrane is not 0, from both ends of the row to its edge.
fn round_not_zero(row: &[i64], b: usize) -> bool
    requires { (length row.now ≤ 64) × (b < length row.now) }
    ensures { result ≡ round_not_zero row.now b }
{
    let c = row.len();
    for a in 0..c {
        if !is_round_fixed(c, a, b) {
            return false;
        }
        if row[a] | row[c - 1 - a] != 0 {
            return true;
        }
    }
    false
}

// Whether some fixed point of row b, which is lent, is not 0.
fn is_row_unfixed(g: Grid, row: &[i64], b: usize) -> bool
    requires { (in_table g ≡ true) × (b < g.rows) × (length row.now ≡ g.columns) }
    ensures { result ≡ row_unfixed g row.now b }
{
    match Kind::from(g.kind) {
        Kind::MembraneRound => round_not_zero(row, b),
        _ => row_not_zero(row, straight_run(g, b)),
    }
}

// 12, row by row, each by its number: `chunks_exact` with `enumerate` is no shorter. That the table has the size stays a clause: a Grid may
// have any.
fn rows_not_zero(g: Grid, xs: &[i64]) -> bool
    requires { (in_table g ≡ true) × (length xs.now ≡ points g) }
    ensures { result ≡ fixed_not_zero g xs.now }
{
    for row in 0..g.rows {
        let start = row * g.columns;
        if is_row_unfixed(g, &xs[start..start + g.columns], row) {
            return true;
        }
    }
    false
}

// 12, of a level that is as long as the grid: of a line by the ends that its kind fixes.
fn fixed_not_zero(g: Grid, xs: &[i64]) -> bool
    requires { (in_table g ≡ true) × (length xs.now ≡ points g) }
    ensures { result ≡ fixed_not_zero g xs.now }
{
    match Kind::from(g.kind) {
        Kind::StringFree => false,
        Kind::StringFixedFree => is_not_zero(&xs[0]),
        Kind::StringFixed | Kind::Bar => is_not_zero(&xs[0]) || is_not_zero(&xs[g.columns - 1]),
        _ => rows_not_zero(g, xs),
    }
}

// 12, of a level as long as a grid whose size the table has; of any other the answer is no.
// Ruled out: a run's first columns looked at in place of those after it; as many rows looked at as there are columns;
// the right of a round membrane's row by its row.
#[tactic(auto, using(crate::proofs::LevelLaws::unfixed_is), unfolding(crate::specs::Levels::unfixed))]
pub fn is_unfixed(g: Grid, xs: &[i64]) -> bool
    ensures { result ≡ unfixed g xs.now }
{
    has_size(g) && xs.len() == points_of(g) && fixed_not_zero(g, xs)
}
