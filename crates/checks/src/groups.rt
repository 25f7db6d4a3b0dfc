// Groups of tests that calls share, each in the order of its numbers. That the table has the size stays a clause: a Grid may have any.
ghost use Rattle.std.specs.Prelude.{◌≡◌, true};
ghost use Rattle.scheme.specs.Instruments.{in_table};
ghost use Rattle.scheme.specs.Refusals.{lowest, hit_checks, pick_checks, width_checks};

use levels::is_beyond;
use runs::is_moving;
use sizes::points_of;
use types::{Grid, Hit, Outcome, Refusal};

// 7 and 8.
pub(crate) fn hit_refusal(g: Grid, hit: Option<Hit>) -> Outcome
    requires { in_table g ≡ true }
    ensures { result ≡ lowest (hit_checks g hit) }
{
    let Some(hit) = hit else {
        return Ok(());
    };
    if !is_moving(g, hit.point) {
        return Err(Refusal::NotMoving);
    }
    if is_beyond(hit.force) {
        return Err(Refusal::TooStrong);
    }
    Ok(())
}

// 9
pub(crate) fn pick_refusal(g: Grid, pick: usize) -> Outcome
    requires { in_table g ≡ true }
    ensures { result ≡ lowest (pick_checks g pick) }
{
    if pick < points_of(g) {
        Ok(())
    } else {
        Err(Refusal::PickUp)
    }
}

// 10
pub(crate) fn width_refusal(g: Grid, half_width: usize) -> Outcome
    requires { in_table g ≡ true }
    ensures { result ≡ lowest (width_checks g half_width) }
{
    if (1..g.columns).contains(&half_width) {
        Ok(())
    } else {
        Err(Refusal::HalfWidth)
    }
}
