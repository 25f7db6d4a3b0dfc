// The turns that the slices of a block take: which holds the older level, which the newer one, and which the next level is put into.
#![tactic(auto)]

mod numbers;

ghost use Rattle.std.specs.Prelude.{◌≡◌, cond, ltb};
ghost use Rattle.types.specs.declared.Refusal.TheVariants.{NextBeyond};
ghost use Rattle.scheme.specs.Calls.{hit_after};
ghost use Rattle.turns.specs.Turns.{next_turn};

pub use numbers::next_turn;
use types::{Hit, Outcome, Refusal};

// What the slices older, newer and work hold.
#[derive(Clone, Copy)]
pub enum Turn {
    // of three levels the older one, the newer one, and room for the next one
    First,
    // room for the next one, the older one and the newer one
    Second,
    // the newer one, room for the next one, and the older one
    Last,
    // of two levels the older one and the newer one: the next one is put into the older one's slice
    There,
    // the newer one and the older one
    Exchanged,
}

impl Turn {
    // The turn after a step. Ruled out: two levels that keep their turn; three levels of which one is never written.
    pub fn next(self) -> Turn
        ensures { result ≡ next_turn self }
    {
        match self {
            Turn::First => Turn::Second,
            Turn::Second => Turn::Last,
            Turn::Last => Turn::First,
            Turn::There => Turn::Exchanged,
            Turn::Exchanged => Turn::There,
        }
    }
}

// The hit of step j: a block's hit acts in its first step alone. Ruled out: a hit in every step; a hit in the second step.
pub fn hit_after(hit: Option<Hit>, j: usize) -> Option<Hit>
    ensures { result ≡ hit_after hit j }
{
    if j == 0 { hit } else { None }
}

// 13 where fewer steps were done than there are places. Ruled out: 13 where all are done; none where steps are left.
pub fn ending(done: usize, places: usize) -> Outcome
    ensures { result ≡ cond (ltb done places) (Err NextBeyond) (Ok tt) }
{
    if done < places {
        Err(Refusal::NextBeyond)
    } else {
        Ok(())
    }
}
