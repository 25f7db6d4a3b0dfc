// The turns as numbers: 0, 1 or 2 of three levels, 3 or 4 of two. Each number from 4 on is taken for the same turn.
ghost use Rattle.std.specs.Prelude.{◌≡◌};
ghost use Rattle.turns.specs.Numbers.{next_turn, turn_of};

use crate::Turn;

impl From<usize> for Turn {
    ghost from_gives = { λ p r. r ≡ turn_of p };

    // Ruled out: 1 taken for the last turn; 5 taken for the first.
    fn from(turn: usize) -> Turn
        ensures { result ≡ turn_of turn }
    {
        match turn {
            0 => Turn::First,
            1 => Turn::Second,
            2 => Turn::Last,
            3 => Turn::There,
            _ => Turn::Exchanged,
        }
    }
}

// The turn after a step. Ruled out: 5 followed by 5; two steps in place of one.
pub fn next_turn(turn: usize) -> usize
    ensures { result ≡ next_turn turn }
{
    Turn::from(turn).next() as usize
}
