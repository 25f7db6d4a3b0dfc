// The arithmetic of one point, in i64. `Planned` stays a clause: `make_plan` gives a Plan of zeros where 4 applies.
ghost use Rattle.std.specs.Prelude.{◌≡◌, not, ◌≤◌, pos, nat_abs, ◌-ℤ◌, ◌*ℤ◌};
ghost use Rattle.types.specs.Numbers.{ceiling};
ghost use Rattle.plans.specs.Plans.{count_of};
ghost use Rattle.scheme.specs.Instruments.{beyond};
ghost use Rattle.scheme.specs.Step.{round_away, sample_of, divisor};
ghost use Rattle.steps.specs.Plan.{bending_of, numerator_with, Planned, Bendable, Updatable};

use plans::{D, Plan};
use rounding::{raised, read_out};

// Whether a numerator is rounded to a value within the ceiling: no division is needed for it.
pub(crate) fn is_below_limit(plan: Plan, n: i64) -> bool
    requires { Planned plan }
    ensures { result ≡ not (beyond (round_away n (divisor plan.instrument.settings))) }
{
    raised(n, plan.half) < plan.limit
}

// The sample of a point.
pub(crate) fn sample(v: i64) -> i16
    requires { nat_abs v ≤ ceiling }
    ensures { result ≡ sample_of v }
{
    read_out(v) as i16
}

// The stiffness m·B at a point: B, L of L, from the sum of its neighbours' sums, the sum of its neighbours, its own value.
pub(crate) fn stiffness(plan: Plan, second: i64, sum: i64, u: i64) -> i64
    requires { Planned plan × Bendable plan second sum u }
    ensures { result ≡ plan.m *ℤ bending_of (pos (count_of plan.instrument.grid)) sum second u }
{
    plan.m * second - plan.bend * sum + plan.stiff * u
}

// The numerator at a point: from its last value u, the sum of its neighbours, its before-last value p, the force f, the stiffness m·B.
// The terms stand in the order of the string in document 003 (van Walstijn's slides), y' = a10·y + a11·(y₊ + y₋) + a20·y_before + aF·F,
// each times the divisor D + s; the stiffness follows the force. Six numbers, each of a term.
pub(crate) fn numerator(plan: Plan, u: i64, sum: i64, p: i64, f: i64, stiff: i64) -> i64
    requires { Planned plan × Updatable plan u sum p f stiff }
    ensures { result ≡ numerator_with plan.instrument.settings u (sum -ℤ pos (count_of plan.instrument.grid) *ℤ u) stiff p f }
{
    let own_last = plan.own * u; // a10·y
    let neighbours = plan.near * sum; // a11·(y₊ + y₋)
    let before_last = plan.kept * p; // −a20·y_before
    let force = D * f; // aF·F
    own_last + neighbours - before_last + force - stiff
}
