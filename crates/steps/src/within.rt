// Whether the next values of points without stiffness lie within the ceiling: nothing is divided, and nothing written. So its loops carry
// no count and no slice to write, which those of points.rt have.
ghost use Rattle.std.specs.Prelude.{◌≡◌, false, not, ◌≤◌, ◌<◌, pos};
ghost use Rattle.scheme.specs.Instruments.{beyond};
ghost use Rattle.scheme.specs.Step.{next_at};
ghost use Rattle.scheme.specs.Refusals.{too_strong};
ghost use Rattle.steps.specs.Plan.{Neighbouring};
ghost use Rattle.steps.specs.Run.{next_of, Tested, Moves, Sums, FreeEnd};

use crate::arithmetic::is_below_limit;
use crate::basis::Basis;
use crate::neighbours::{sum_around, sum_beside};
use stretches::{clamped, force_at};
use types::Hit;

impl Basis<'_> {
    // One point: sum is that of its neighbours. That the hit is weak enough stays a clause: `force_at` takes any hit.
    fn is_point_within(self, at: usize, sum: i64, hit: Option<Hit>) -> bool
        requires { (too_strong hit ≡ false)
            × Neighbouring self.plan.instrument self.newer.now at sum (pos 0) }
        ensures { result ≡ not (beyond (next_at self.entry.plan.instrument hit self.entry.older.now self.entry.newer.now at)) }
    {
        let force = force_at(hit, at);
        is_below_limit(self.plan, self.numerator_at(at, sum, 0, force))
    }

    // Moving points, none of them stiff: `sum` gives the sum of a point's neighbours.
    fn is_run_within<F: Fn(usize) -> i64 + Drop>(
        self,
        sum: F,
        from: usize,
        to: usize,
        hit: Option<Hit>,
    ) -> bool
        requires ready { (too_strong hit ≡ false) × (from ≤ to) }
        requires sums { Sums self.plan.instrument self.newer.now (F.pre sum) (F.post sum) from to }
        ensures { Tested (next_of self.entry.plan.instrument hit self.entry.older.now self.entry.newer.now) from to result }
    {
        for at in from..to {
            if !self.is_point_within(at, sum(at), hit) {
                return false;
            }
        }
        true
    }

    // The points from..to: one end of a line, if it is free, or none.
    fn is_end_within(self, near: usize, from: usize, to: usize, hit: Option<Hit>) -> bool
        requires ready { (too_strong hit ≡ false) × (from ≤ to) }
        requires free_end { FreeEnd self.plan.instrument near from to }
        ensures { Tested (next_of self.entry.plan.instrument hit self.entry.older.now self.entry.newer.now) from to result }
    {
        if from == to {
            return true;
        }
        let x = self.newer[near];
        self.is_point_within(from, x + x, hit)
    }

    // Moving points of a string: its first, if it is one of them, the inner ones, its last.
    fn is_string_within(self, from: usize, to: usize, hit: Option<Hit>) -> bool
        requires ready { (too_strong hit ≡ false) × (self.plan.instrument.settings.m ≡ 0) }
        requires one_row { (self.plan.instrument.grid.rows ≡ 1) × Moves self.plan.instrument.grid from to × (from < to) }
        ensures { Tested (next_of self.entry.plan.instrument hit self.entry.older.now self.entry.newer.now) from to result }
    {
        let newer = self.newer;
        let n = newer.len();
        let first = clamped(from, to, 1);
        let last = clamped(from, to, n - 1);
        if !self.is_end_within(1, from, first, hit) {
            return false;
        }
        if !self.is_run_within(|at| sum_beside(newer, at), first, last, hit) {
            return false;
        }
        self.is_end_within(n - 2, last, to, hit)
    }

    // Moving points of a row.
    pub(crate) fn is_row_within(self, from: usize, to: usize, hit: Option<Hit>) -> bool
        requires ready { (too_strong hit ≡ false) × (self.plan.instrument.settings.m ≡ 0) }
        requires moves { Moves self.plan.instrument.grid from to }
        ensures { Tested (next_of self.entry.plan.instrument hit self.entry.older.now self.entry.newer.now) from to result }
    {
        if self.plan.instrument.grid.rows != 1 {
            let newer = self.newer;
            let columns = self.plan.instrument.grid.columns;
            return self.is_run_within(|at| sum_around(newer, at, columns), from, to, hit);
        }
        if from == to {
            return true;
        }
        self.is_string_within(from, to, hit)
    }
}
