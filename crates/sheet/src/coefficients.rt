// The coefficients of a sheet: f64 operations in the paper's order, then the nearest whole numbers.
ghost use Rattle.std.specs.Prelude.{◌≡◌, ◌≤◌, cond, Some, None};
ghost use Rattle.sheet.specs.Coefficients.{courant_squared, stiffness, loss_per_step, coefficients, some_outside, settings_of};

use crate::{Loss, Sheet, Speed};
use nearest::nearest_whole;
use types::Settings;

// Each times D and rounded: q for R, m for μ², s for σ₀k.
#[derive(Clone, Copy)]
pub(crate) struct Coefficients {
    pub(crate) q: Option<u64>,
    pub(crate) m: Option<u64>,
    pub(crate) s: Option<u64>,
}

// R, the squared Courant number.
#[tactic(auto, using(crate::proofs::NumberLaws::hertz_is))]
fn courant_squared(g: f64, h: f64, rate: f64, speed: Speed) -> f64
    ensures { result ≡ courant_squared g h rate speed }
{
    match speed {
        Speed::Hertz(f) => {
            let z = ((2.0 * f) * g) / rate;
            z * z
        }
        Speed::Tension { tension, density } => ((tension / density) / (rate * rate)) / (h * h),
    }
}

// μ², the stiffness.
fn stiffness(h: f64, rate: f64, bending: f64) -> f64
    ensures { result ≡ stiffness h rate bending }
{
    ((bending / (rate * rate)) / (h * h)) / (h * h)
}

// σ₀k, the loss.
#[tactic(auto, using(crate::proofs::NumberLaws::seconds_is))]
fn loss_per_step(rate: f64, loss: Loss) -> f64
    ensures { result ≡ loss_per_step rate loss }
{
    match loss {
        Loss::PerSecond(sigma) => sigma / rate,
        Loss::Seconds(seconds) => (6.907755278982137 / seconds) / rate,
    }
}

impl Coefficients {
    // g is the number of spaces between columns, h the length of one.
    #[tactic(auto, unfolding(crate::specs::Coefficients::coefficients))]
    pub(crate) fn of_sheet(columns: usize, sheet: Sheet) -> Coefficients
        requires { (1 ≤ columns) × (columns ≤ 1024) }
        ensures { result ≡ coefficients columns sheet }
    {
        let g = (columns - 1) as f64;
        let h = sheet.length / g;
        Coefficients {
            q: nearest_whole(courant_squared(g, h, sheet.rate, sheet.speed)),
            m: nearest_whole(stiffness(h, sheet.rate, sheet.bending)),
            s: nearest_whole(loss_per_step(sheet.rate, sheet.loss)),
        }
    }

    // What they set; none where one of them is not in 0..D, which is 4.
    // Ruled out: a number taken as outside; none taken as inside; a number read as 0; 1 where there is none.
    pub(crate) fn settings(self) -> Option<Settings>
        ensures { result ≡ cond (some_outside self) None (Some (settings_of self)) }
    {
        Some(Settings::new(self.q?, self.m?, self.s?))
    }
}
