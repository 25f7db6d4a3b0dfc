// An instrument as the steps of a block need it.
#![tactic(auto)]

ghost use Rattle.std.specs.Prelude.{◌≡◌, pos};
ghost use Rattle.plans.specs.Plans.{count_of, plan_of};

use instruments::wrong_coefficient;
use types::{Grid, Instrument, Settings};

// D of the papers, signed.
pub const D: i64 = Settings::D as i64;

// An instrument, and the factors of a step. With c neighbours, two on a line and four on a grid, a numerator has own = 2D − cq times the
// newer value, near = q times the sum of the neighbours, kept = D − s times the older value and m times L of L: m times the sum of the
// neighbours' sums, less bend = 2cm times the sum of the neighbours, and stiff = c²m times the newer value. It is divided by
// divisor = D + s, of which half is the half: a size that has reached limit with that added is rounded to a value beyond the ceiling.
#[derive(Clone, Copy)]
pub struct Plan {
    pub instrument: Instrument,
    pub own: i64,
    pub near: i64,
    pub kept: i64,
    pub m: i64,
    pub bend: i64,
    pub stiff: i64,
    pub divisor: u32,
    pub half: u32,
    pub limit: u64,
}

// How many neighbours a moving point has.
fn count_in(g: Grid) -> i64
    ensures { result ≡ pos (count_of g) }
{
    if g.rows == 1 { 2 } else { 4 }
}

// The factors, zeros where a setting is above D. Ruled out: own and near exchanged; bend and stiff exchanged.
pub fn make_plan(i: Instrument) -> Plan
    ensures { result ≡ plan_of i }
{
    if wrong_coefficient(i.settings) {
        // no Option: the steps make a plan where 4 has passed, and would only open it
        return Plan {
            instrument: i,
            own: 0,
            near: 0,
            kept: 0,
            m: 0,
            bend: 0,
            stiff: 0,
            divisor: 0,
            half: 0,
            limit: 0,
        };
    }
    let count = count_in(i.grid);
    let q = i.settings.q as i64;
    let m = i.settings.m as i64;
    let s = i.settings.s as i64;
    let divisor = D + s;
    Plan {
        instrument: i,
        own: 2 * D - count * q,
        near: q,
        kept: D - s,
        m,
        bend: 2 * count * m,
        stiff: count * count * m,
        divisor: divisor as u32,
        half: (divisor / 2) as u32,
        limit: ((Settings::CEILING + 1) * divisor) as u64,
    }
}
