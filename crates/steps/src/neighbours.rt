// The sum of a point's neighbours. Of a slice and not of a Basis: a plate's first sums are made before there is one.
ghost use Rattle.std.specs.Prelude.{◌≡◌, ◌+◌, ◌≤◌, ◌<◌, length};
ghost use Rattle.types.specs.Numbers.{ceiling};
ghost use Rattle.scheme.specs.Lists.{point};
ghost use Rattle.steps.specs.Plan.{AtMost};
ghost use Rattle.steps.specs.Run.{two_beside, four_beside, bar_sum};

// The points to the left and to the right.
pub(crate) fn sum_beside(xs: &[i64], k: usize) -> i64
    requires { (1 ≤ k) × (k + 1 < length xs.now) × AtMost ceiling (point xs.now) }
    ensures { result ≡ two_beside xs.now k }
{
    xs[k - 1] + xs[k + 1]
}

// These, and the points above and below in a grid.
pub(crate) fn sum_around(xs: &[i64], k: usize, columns: usize) -> i64
    requires { (1 ≤ columns) × (columns ≤ k) × (k + columns < length xs.now) × AtMost ceiling (point xs.now) }
    ensures { result ≡ four_beside xs.now columns k }
{
    sum_beside(xs, k) + xs[k - columns] + xs[k + columns]
}

// The sum of a point's neighbours on a bar: 0 at its supported ends.
pub(crate) fn sum_at(xs: &[i64], k: usize) -> i64
    requires { (k < length xs.now) × AtMost ceiling (point xs.now) }
    ensures { result ≡ bar_sum xs.now k }
{
    if k == 0 || k == xs.len() - 1 {
        return 0;
    }
    sum_beside(xs, k)
}
