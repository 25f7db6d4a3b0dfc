// What the next values are made of.
ghost use Rattle.std.specs.Prelude.{pos};
ghost use Rattle.steps.specs.Plan.{Ready};

use plans::Plan;

// The factors of a step, and the two last levels.
#[derive(Clone, Copy)]
pub(crate) struct Basis<'a> {
    pub(crate) plan: Plan,
    pub(crate) older: &'a [i64],
    pub(crate) newer: &'a [i64],
    ghost ready: { Ready plan (pos 0) older.now newer.now },
}
