// What refuses an instrument, 1, 2, 4 and 5, and the length of a lent level, 6.
#![tactic(auto)]

ghost use Rattle.std.specs.Prelude.{◌≡◌};
ghost use Rattle.scheme.specs.Refusals.{grid_checks, instrument_refusal, lowest, settings_checks, wrong_coefficient};
ghost use Rattle.instruments.specs.Refused.{not_long};

use sizes::{has_size, is_stable, points_of};
use types::{Grid, Instrument, Outcome, Refusal, Settings};

// 1 and 2, where the call admits kinds 1..last. Ruled out: kind 0 admitted; a wrong size answered as an unknown kind.
pub fn grid_refusal(g: Grid, last: u64) -> Outcome
    ensures { result ≡ lowest (grid_checks last g) }
{
    if !(Grid::FIRST..=last).contains(&g.kind) {
        Err(Refusal::UnknownKind)
    } else if !has_size(g) {
        Err(Refusal::WrongSize)
    } else {
        Ok(())
    }
}

// 4. Ruled out: a setting of 65536 refused; a loss above 65536 let pass.
pub fn wrong_coefficient(c: Settings) -> bool
    ensures { result ≡ wrong_coefficient c }
{
    Settings::D < c.q || Settings::D < c.m || Settings::D < c.s
}

// 4 and 5.
fn settings_refusal(i: Instrument) -> Outcome
    ensures { result ≡ lowest (settings_checks i) }
{
    if wrong_coefficient(i.settings) {
        Err(Refusal::Coefficient)
    } else if !is_stable(i.grid.kind, i.settings.q, i.settings.m) {
        Err(Refusal::Unstable)
    } else {
        Ok(())
    }
}

// 1, 2, 4 and 5. Ruled out: the last kind refused 1; q 65536 refused 4; a grid that passes taken for an answer.
#[tactic(auto, using(crate::proofs::RefusalLaws::in_turn), unfolding(scheme::specs::Refusals::instrument_refusal))]
pub fn instrument_refusal(i: Instrument) -> Outcome
    ensures { result ≡ instrument_refusal i }
{
    grid_refusal(i.grid, Grid::LAST)?;
    settings_refusal(i)
}

// 6, of a lent level of n points. Ruled out: a longer level passes; a shorter level passes.
pub fn wrong_length(g: Grid, n: usize) -> bool
    ensures { result ≡ not_long g n }
{
    n != points_of(g)
}
