// What the ten numbers of a line stand for: what the block of `ring` is called with, and the refusal of a grid that is too large.
#![tactic(auto)]

ghost use Rattle.std.specs.Prelude.{◌≡◌, ◌*◌, ltb};
ghost use Rattle.ring_setup.specs.Numbers.{asked_instrument, asked_hit, is_too_large, level_length, lent_length, setup_of};

use ring_line::Numbers;
use types::{Grid, Hit, Instrument, Refusal, Settings};

const MOST: usize = 1024;

// The length is that of the levels to lend, or what refuses a grid that is too large.
#[derive(Clone, Copy)]
pub struct Setup {
    pub instrument: Instrument,
    pub hit: Option<Hit>,
    pub length: Result<usize, Refusal>,
}

// Of the numbers of a line; C's numbers are put together in crate packing, on which `ring` does not stand.
fn asked_instrument(n: Numbers) -> Instrument
    ensures { result ≡ asked_instrument n }
{
    let grid = Grid::new(n.kind, n.columns, n.rows);
    let settings = Settings::new(n.q, n.m, n.s);
    Instrument { grid, settings }
}

fn asked_hit(n: Numbers) -> Option<Hit>
    ensures { result ≡ asked_hit n }
{
    Some(Hit {
        point: n.point,
        force: n.force,
    })
}

// Whether columns × rows is more than 1024.
fn is_above(columns: usize, rows: usize) -> bool
    ensures { result ≡ ltb 1024 (columns * rows) }
{
    MOST < columns.saturating_mul(rows)
}

// Whether the kind is known and has more than 1024 points.
fn is_too_large(g: Grid) -> bool
    ensures { result ≡ is_too_large g }
{
    (Grid::FIRST..=Grid::LAST).contains(&g.kind) && is_above(g.columns, g.rows)
}

// An unknown kind of more points is lent no level: it is refused before its levels are looked at.
fn level_length(g: Grid) -> usize
    ensures { result ≡ level_length g }
{
    if is_above(g.columns, g.rows) {
        return 0;
    }
    g.columns * g.rows
}

fn lent_length(g: Grid) -> Result<usize, Refusal>
    ensures { result ≡ lent_length g }
{
    if is_too_large(g) {
        return Err(Refusal::WrongSize);
    }
    Ok(level_length(g))
}

// What the block is called with. Ruled out: columns and rows exchanged; no hit where the force is 0; 1025 points admitted; an unknown
// kind that is too large; the hit forgotten where the grid is too large.
pub fn set_up(n: Numbers) -> Setup
    ensures { result ≡ setup_of n }
{
    let instrument = asked_instrument(n);
    Setup {
        instrument,
        hit: asked_hit(n),
        length: lent_length(instrument.grid),
    }
}
