// What is fixed by the kind of a grid: the moving columns of a straight row, and the edge of a round membrane.
#![tactic(auto)]

mod runs;

pub use runs::{Run, is_round_fixed, straight_run};
