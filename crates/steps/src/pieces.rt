// The pieces of a row, for a pass that writes older itself: a piece is worked out in a slice of its own, then put into older.
ghost use Rattle.std.specs.Prelude.{◌≡◌, false, ◌&&◌, ◌-◌, ◌≤◌, length};
ghost use Rattle.scheme.specs.Lists.{point};
ghost use Rattle.steps.specs.Run.{Filled, Placed};

use slices::copy;
use stretches::Stretch;

// The values of a piece, that of point k at place k − base of xs, put into ys, if they are written in place.
pub(crate) fn put_piece<const IN_PLACE: bool>(xs: &[i64], s: Stretch, ys: &mut [i64])
    requires { Placed s (length xs.now) × (s.to ≤ length ys.old) }
    ensures { Filled (λ k. point xs.now (k - s.base)) (IN_PLACE && s.write) 0 ys.old ys.new
        s.from s.to
        × ((IN_PLACE && s.write) ≡ false → ys.new ≡ ys.old) }
{
    if IN_PLACE && s.write {
        copy(&xs[s.from - s.base..s.to - s.base], &mut ys[s.from..s.to]);
    }
}
