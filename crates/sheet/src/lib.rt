// The player's sheet: from f64 numbers to an instrument's settings.
#![tactic(auto)]

mod coefficients;
mod numbers;

ghost use Rattle.std.specs.Prelude.{◌≡◌};
ghost use Rattle.sheet.specs.Call.{settings_read, sheet_call};

use crate::coefficients::Coefficients;
use instruments::grid_refusal;
use sizes::is_stable;
use types::{Grid, Kind, Refusal, Settings};

// A speed: hertz, which is wave speed over twice the length, or a tension with a density. The definitions `speed_allowed` and
// `courant_squared` tell what the paper makes of each.
#[derive(Clone, Copy)]
pub enum Speed {
    Hertz(f64),
    Tension { tension: f64, density: f64 },
}

// A loss: a rate per second, or the seconds to a thousandth. The definitions `loss_allowed` and `loss_per_step` tell what the paper makes
// of each.
#[derive(Clone, Copy)]
pub enum Loss {
    PerSecond(f64),
    Seconds(f64),
}

// The player's sheet: rate in hertz, length in metres, bending κ², a speed and a loss.
#[derive(Clone, Copy)]
pub struct Sheet {
    pub rate: f64,
    pub length: f64,
    pub bending: f64,
    pub speed: Speed,
    pub loss: Loss,
}

// The settings of a sheet for a kind and its grid, or what refuses it.
// Ruled out: q and m exchanged; a loss outside 0..D accepted.
#[tactic(auto, using(crate::proofs::CallLaws::by_checks))]
pub fn settings_for(grid: Grid, sheet: Sheet) -> Result<Settings, Refusal>
    ensures { result ≡ sheet_call grid sheet }
{
    grid_refusal(grid, Grid::LAST)?;
    let kind = Kind::from(grid.kind);
    if !sheet.is_allowed(kind) {
        return Err(Refusal::SheetNumber);
    }
    let coefficients = Coefficients::of_sheet(grid.columns, sheet);
    let settings = coefficients.settings().ok_or(Refusal::Coefficient)?;
    if !is_stable(grid.kind, settings.q, settings.m) {
        return Err(Refusal::Unstable);
    }
    Ok(settings)
}

// The settings of an answer, all zeros where it is a refusal.
// Ruled out: a refused sheet's loss 1; the settings of an accepted sheet forgotten.
pub fn settings_read(answer: Result<Settings, Refusal>) -> Settings
    ensures { result ≡ settings_read answer }
{
    answer.unwrap_or(Settings::new(0, 0, 0))
}
