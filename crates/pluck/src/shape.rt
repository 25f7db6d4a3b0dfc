// The shape of a pluck: what its rule gives at each point of a line, by a table that keeps the rule of a shape.
ghost use Rattle.std.specs.Prelude.{◌≡◌, ◌≤◌, ◌<◌, nat_abs, length};
ghost use Rattle.types.specs.Numbers.{ceiling};

use crate::table::Table;
use kinds::Run;

// A place in the table is counted in parts of an entry.
const PARTS: usize = 4294967296;

// A table, the moving points of a line, and a pluck's centre, half width and height: what the refusals let pass.
#[derive(Clone, Copy)]
pub(crate) struct Shape<'a> {
    pub table: Table<'a>,
    pub run: Run,
    pub centre: usize,
    pub width: usize,
    pub height: i64,
    ghost some: { 1 ≤ width },
    ghost narrow: { width ≤ 1024 },
    ghost low: { nat_abs height ≤ ceiling },
    ghost starts: { run.from ≤ centre },
    ghost ends: { centre < run.to },
}

impl Shape<'_> {
    ghost use Rattle.scheme.specs.Lists.{tabulate};
    ghost use Rattle.scheme.specs.Pluck.{pluck_value};
    ghost use Rattle.pluck.specs.Shapes.{step_of, put_both, shape_at};

    // From the place of one distance to that of the next: last/width entries, rounded up.
    fn step(&self) -> usize
        ensures { result ≡ step_of self.now.width }
    {
        self.table.last * (PARTS / self.width + 1)
    }

    // A moving point at distance d: its place is width − d steps from the first entry.
    fn value(&self, step: usize, d: usize) -> i64
        requires { (step ≡ step_of self.now.width) × (d ≤ self.now.width) }
        ensures { result ≡ pluck_value self.now.table.entries.now self.now.width self.now.height d }
    {
        let j = (self.width - d) * step / PARTS;
        let t = self.table.entries[j] as i64;
        self.height * t / 65536
    }

    // The two points at distance d, where they move.
    #[tactic(auto, unfolding(crate::specs::Shapes::put_at))]
    fn put_both(&self, d: usize, v: i64, level: &mut [i64])
        requires { self.now.run.to ≤ length level.old }
        ensures { level.new ≡ put_both self.now d v level.old }
    {
        if d <= self.centre - self.run.from {
            level[self.centre - d] = v;
        }
        let inside = d < self.run.to - self.centre;
        if inside {
            level[self.centre + d] = v;
        }
    }

    // A level of the line, overwritten: each distance is worked out once.
    pub(crate) fn fill(&self, level: &mut [i64])
        requires { self.now.run.to ≤ length level.old }
        ensures { level.new ≡ tabulate (length level.old) (shape_at self.now) }
    {
        level.fill(0);
        let step = self.step();
        for d in 0..=self.width {
            self.put_both(d, self.value(step, d), level);
        }
    }
}
