// What C's numbers and flags stand for: an instrument, a hit, a sheet. They come one by one, as the C interface has them.
#![tactic(auto)]

ghost use Rattle.std.specs.Prelude.{◌≡◌};
ghost use Rattle.packing.specs.Packing.{instrument_of, hit_of, speed_of, loss_of, sheet_of};

use sheet::{Loss, Sheet, Speed};
use types::{Grid, Hit, Instrument, Settings};

// Ruled out: columns and rows exchanged; q and m exchanged.
pub fn instrument_of(kind: u64, columns: usize, rows: usize, q: u64, m: u64, s: u64) -> Instrument
    ensures { result ≡ instrument_of kind columns rows q m s }
{
    let grid = Grid::new(kind, columns, rows);
    let settings = Settings::new(q, m, s);
    Instrument { grid, settings }
}

// Ruled out: a hit where its flag is 0; the hit at point 0 whatever is asked.
pub fn hit_of(hit: u64, point: usize, force: i64) -> Option<Hit>
    ensures { result ≡ hit_of hit point force }
{
    if hit == 0 {
        None
    } else {
        Some(Hit { point, force })
    }
}

fn speed_of(by_tension: u64, speed: f64, density: f64) -> Speed
    ensures { result ≡ speed_of by_tension speed density }
{
    if by_tension == 0 {
        Speed::Hertz(speed)
    } else {
        Speed::Tension {
            tension: speed,
            density,
        }
    }
}

fn loss_of(by_seconds: u64, loss: f64) -> Loss
    ensures { result ≡ loss_of by_seconds loss }
{
    if by_seconds == 0 {
        Loss::PerSecond(loss)
    } else {
        Loss::Seconds(loss)
    }
}

// Ruled out: a tension taken as hertz; seconds taken as a rate.
pub fn sheet_of(
    rate: f64,
    length: f64,
    bending: f64,
    by_tension: u64,
    speed: f64,
    density: f64,
    by_seconds: u64,
    loss: f64,
) -> Sheet
    ensures { result ≡ sheet_of rate length bending by_tension speed density by_seconds loss }
{
    let speed = speed_of(by_tension, speed, density);
    let loss = loss_of(by_seconds, loss);
    Sheet {
        rate,
        length,
        bending,
        speed,
        loss,
    }
}
