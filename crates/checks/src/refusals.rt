// What refuses a call: its groups of tests, in their order.
ghost use Rattle.std.specs.Prelude.{◌≡◌, ◌||◌};
ghost use Rattle.scheme.specs.Refusals.{lowest, input_checks, pluck_checks};
ghost use Rattle.scheme.specs.Refusals as Refusals;
ghost use Rattle.instruments.specs.Refused.{not_long};

use crate::groups::{hit_refusal, pick_refusal, width_refusal};
use instruments::{grid_refusal, instrument_refusal};
use sizes::points_of;
use types::{Grid, Hit, Instrument, Outcome, Refusal};

// A block's 1, 2 and 4 to 9, by a test of all the lengths that are lent: a call that lends other slices gives another test.
// Ruled out: the hit not looked at; the pick-up not looked at.
#[tactic(auto, unfolding(scheme::specs::Refusals::instrument_refusal))]
pub fn input_refusal(i: Instrument, wrong: bool, pick: usize, h: Option<Hit>) -> Outcome
    ensures { result ≡ lowest (input_checks i wrong pick h) }
{
    instrument_refusal(i)?;
    if wrong {
        return Err(Refusal::WrongLength);
    }
    hit_refusal(i.grid, h)?;
    pick_refusal(i.grid, pick)
}

// A pluck's 1, 2, 6, 7, 8 and 10, by a test of the two lengths. Ruled out: kind 5 plucked; the height not looked at.
pub fn pluck_refusal(g: Grid, wrong: bool, centre: usize, half_width: usize, height: i64) -> Outcome
    ensures { result ≡ lowest (pluck_checks g wrong centre half_width height) }
{
    grid_refusal(g, Grid::LAST_PLUCKED)?;
    if wrong {
        return Err(Refusal::WrongLength);
    }
    let hit = Hit {
        point: centre,
        force: height,
    };
    hit_refusal(g, Some(hit))?;
    width_refusal(g, half_width)
}

// 6, of two levels of so many points.
fn wrong_levels(g: Grid, older: usize, newer: usize) -> bool
    ensures { result ≡ (not_long g older || not_long g newer) }
{
    let points = points_of(g);
    older != points || newer != points
}

// A pluck that is asked for: of a grid, about its centre.
#[derive(Clone, Copy)]
pub struct Pluck {
    pub grid: Grid,
    pub centre: usize,
    pub half_width: usize,
    pub height: i64,
}

impl Pluck {
    // What `pluck_refusal` answers, of two levels of so many points. Ruled out: newer not looked at; the centre taken for the half width.
    #[tactic(auto, using(crate::proofs::RefusalLaws::refusal_is))]
    pub fn refusal(self, older: usize, newer: usize) -> Outcome
        ensures { result ≡ Refusals.pluck_refusal self.grid older newer self.centre self.half_width self.height }
    {
        let wrong = wrong_levels(self.grid, older, newer);
        pluck_refusal(self.grid, wrong, self.centre, self.half_width, self.height)
    }
}
