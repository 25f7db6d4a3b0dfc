// The numbers that a sheet may have.
ghost use Rattle.std.specs.Prelude.{◌≡◌};
ghost use Rattle.sheet.specs.Numbers.{non_negative, positive, pitched, speed_allowed, loss_allowed, numbers_allowed};

use crate::{Loss, Sheet, Speed};
use types::Kind;

// Whether x is finite and not negative. Minus zero counts as zero. A test against the largest finite number is faster than one against
// the infinity.
#[tactic(auto, using(crate::proofs::NumberLaws::non_negative_is))]
fn is_non_negative(x: f64) -> bool
    ensures { result ≡ non_negative x }
{
    (0.0 <= x) & (x <= f64::MAX)
}

// Whether x is finite and above zero.
#[tactic(auto, using(crate::proofs::NumberLaws::positive_is))]
fn is_positive(x: f64) -> bool
    ensures { result ≡ positive x }
{
    (0.0 < x) & (x <= f64::MAX)
}

// Whether a kind takes a pitch in hertz.
fn is_pitched(kind: Kind) -> bool
    ensures { result ≡ pitched kind }
{
    matches!(
        kind,
        Kind::StringFixed | Kind::StringFixedFree | Kind::StringFree | Kind::Bar
    )
}

impl Speed {
    fn is_allowed(self, kind: Kind) -> bool
        ensures { result ≡ speed_allowed kind self }
    {
        match self {
            Speed::Hertz(f) => is_pitched(kind) && is_non_negative(f),
            Speed::Tension { tension, density } => is_non_negative(tension) && is_positive(density),
        }
    }
}

impl Loss {
    fn is_allowed(self) -> bool
        ensures { result ≡ loss_allowed self }
    {
        match self {
            Loss::PerSecond(sigma) => is_non_negative(sigma),
            Loss::Seconds(seconds) => is_positive(seconds),
        }
    }
}

impl Sheet {
    // 3: whether each of its numbers is allowed for a kind.
    #[tactic(auto, unfolding(crate::specs::Numbers::numbers_allowed))]
    pub(crate) fn is_allowed(self, kind: Kind) -> bool
        ensures { result ≡ numbers_allowed kind self }
    {
        is_positive(self.rate)
            && is_positive(self.length)
            && is_non_negative(self.bending)
            && self.speed.is_allowed(kind)
            && self.loss.is_allowed()
    }
}
