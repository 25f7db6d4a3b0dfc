// The next values of a stretch of moving points, put into a slice that is neither older nor newer.
// At the first that lies beyond the ceiling each function stops.
ghost use Rattle.std.specs.Prelude.{nat_abs, ◌≡◌, ◌+◌, ◌-◌, ◌≤◌, ◌<◌, length};
ghost use Rattle.steps.specs.Plan.{SoftGrid, Neighbouring};
ghost use Rattle.types.specs.declared.Kind.TheVariants.{Bar};
ghost use Rattle.types.specs.Numbers.{ceiling};
ghost use Rattle.scheme.specs.Instruments.{kind};
ghost use Rattle.scheme.specs.Step.{divisor};
ghost use Rattle.steps.specs.Run.{next_over, next_by, Advanced, Placed, Moves, Sums, OnLine, FreeEnd};

use crate::arithmetic::{is_below_limit, numerator, stiffness};
use crate::basis::Basis;
use crate::neighbours::{sum_around, sum_at, sum_beside};
use rounding::round_by;
use stretches::Stretch;

impl Basis<'_> {
    // The numerator at a point: sum is that of its neighbours, stiff is m·B.
    pub(crate) fn numerator_at(self, at: usize, sum: i64, stiff: i64, force: i64) -> i64
        requires { (nat_abs force ≤ ceiling) × Neighbouring self.plan.instrument self.newer.now at sum stiff }
        ensures { next_over result (divisor self.entry.plan.instrument.settings)
            ≡ next_by self.entry.plan.instrument force self.entry.older.now self.entry.newer.now at }
    {
        numerator(self.plan, self.newer[at], sum, self.older[at], force, stiff)
    }

    // One point: its next value. The force and the place of a stretch stay clauses: the one is of any hit, the other ties it to `out`.
    pub(crate) fn next_point(
        self,
        at: usize,
        sum: i64,
        stiff: i64,
        s: Stretch,
        out: &mut [i64],
    ) -> Option<u64>
        requires ready { (nat_abs s.force ≤ ceiling) × Neighbouring self.plan.instrument self.newer.now at sum stiff }
        requires placed { Placed s (length out.old) × (s.from ≤ at) × (at < s.to) }
        ensures { Advanced self.entry.plan s self.entry.older.now self.entry.newer.now out.old out.new at (at + 1) result }
    {
        let n = self.numerator_at(at, sum, stiff, s.force);
        // named, since the edit `beyond_let_pass` is of this test
        let beyond = !is_below_limit(self.plan, n);
        if beyond {
            return None;
        }
        if !s.write {
            return Some(0);
        }
        let rounded = round_by(n, self.plan.divisor, self.plan.half);
        out[at - s.base] = rounded.whole;
        Some(u64::from(rounded.remainder != 0))
    }

    // Moving points without stiffness: `sum` gives the sum of a point's neighbours.
    fn soft_run<F: Fn(usize) -> i64 + Drop>(
        self,
        sum: F,
        s: Stretch,
        out: &mut [i64],
    ) -> Option<u64>
        requires ready { (nat_abs s.force ≤ ceiling) × Placed s (length out.old) }
        requires sums { Sums self.plan.instrument self.newer.now (F.pre sum) (F.post sum) s.from s.to }
        ensures { Advanced self.entry.plan s self.entry.older.now self.entry.newer.now out.old out.new s.from s.to result }
    {
        let mut inexact = 0;
        for at in s.from..s.to {
            inexact += self.next_point(at, sum(at), 0, s, out)?;
        }
        Some(inexact)
    }

    // Points of a bar: the sums of the neighbours before, here and after, each worked out once and handed on, which `soft_run` does not.
    fn bar_run(self, s: Stretch, out: &mut [i64]) -> Option<u64>
        requires ready { (nat_abs s.force ≤ ceiling) × Placed s (length out.old) }
        requires on_line { OnLine self.plan.instrument.grid s.from s.to × (kind self.plan.instrument.grid ≡ Bar) }
        ensures { Advanced self.entry.plan s self.entry.older.now self.entry.newer.now out.old out.new s.from s.to result }
    {
        let mut inexact = 0;
        let mut left = sum_at(self.newer, s.from - 1);
        let mut here = sum_at(self.newer, s.from);
        for at in s.from..s.to {
            let right = sum_at(self.newer, at + 1);
            let stiff = stiffness(self.plan, left + right, here, self.newer[at]);
            inexact += self.next_point(at, here, stiff, s, out)?;
            left = here;
            here = right;
        }
        Some(inexact)
    }

    // Inner points of a line without stiffness.
    fn inner_points(self, s: Stretch, out: &mut [i64]) -> Option<u64>
        requires ready { (nat_abs s.force ≤ ceiling) × Placed s (length out.old) }
        requires on_line { OnLine self.plan.instrument.grid s.from s.to × (self.plan.instrument.settings.m ≡ 0) }
        ensures { Advanced self.entry.plan s self.entry.older.now self.entry.newer.now out.old out.new s.from s.to result }
    {
        let newer = self.newer;
        self.soft_run(|at| sum_beside(newer, at), s, out)
    }

    // The part of a stretch that is one end of a line, if it has one: at a free end the one neighbour counts twice.
    fn free_end(self, near: usize, s: Stretch, out: &mut [i64]) -> Option<u64>
        requires ready { (nat_abs s.force ≤ ceiling) × Placed s (length out.old) }
        requires free_end { FreeEnd self.plan.instrument near s.from s.to }
        ensures { Advanced self.entry.plan s self.entry.older.now self.entry.newer.now out.old out.new s.from s.to result }
    {
        if s.from == s.to {
            return Some(0);
        }
        let x = self.newer[near];
        self.next_point(s.from, x + x, 0, s, out)
    }

    // Moving points of a line: its first, if it is one of them, the inner ones, its last. Of lines only a bar is stiff; its ends are fixed.
    fn line_points(self, s: Stretch, out: &mut [i64]) -> Option<u64>
        requires ready { (nat_abs s.force ≤ ceiling) × Placed s (length out.old) }
        requires one_row { (self.plan.instrument.grid.rows ≡ 1) × Moves self.plan.instrument.grid s.from s.to × (s.from < s.to) }
        ensures { Advanced self.entry.plan s self.entry.older.now self.entry.newer.now out.old out.new s.from s.to result }
    {
        if self.plan.m != 0 {
            return self.bar_run(s, out);
        }
        let n = self.newer.len();
        let first = self.free_end(1, s.part(0, 1), out)?;
        let inner = self.inner_points(s.part(1, n - 1), out)?;
        let last = self.free_end(n - 2, s.part(n - 1, n), out)?;
        Some(first + inner + last)
    }

    // Moving points of a row. Off a line there is no stiffness. Inlined, so that no row copies the factors.
    #[inline(always)]
    pub(crate) fn points_run(self, s: Stretch, out: &mut [i64]) -> Option<u64>
        requires ready { (nat_abs s.force ≤ ceiling) × Placed s (length out.old) }
        requires moves { Moves self.plan.instrument.grid s.from s.to × (s.from < s.to) × SoftGrid self.plan.instrument }
        ensures { Advanced self.entry.plan s self.entry.older.now self.entry.newer.now out.old out.new s.from s.to result }
    {
        if self.plan.instrument.grid.rows == 1 {
            return self.line_points(s, out);
        }
        let newer = self.newer;
        let columns = self.plan.instrument.grid.columns;
        self.soft_run(|at| sum_around(newer, at, columns), s, out)
    }
}
