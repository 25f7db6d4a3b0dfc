// The levels back in their places after the steps of a block.
ghost use Rattle.std.specs.Prelude.{◌≡◌, false, length};
ghost use Rattle.turns.specs.Turns.{of_two, older_of, newer_of};

use slices::{copy, exchange};
use turns::Turn;

// The two levels back in their places, by a match: each arm hands the slices over in an order of its own.
pub(crate) fn settle(older: &mut [i64], newer: &mut [i64], work: &[i64], turn: Turn)
    requires { (length newer.old ≡ length older.old) × (of_two turn ≡ false → length work.now ≡ length older.old) }
    ensures { (older.new ≡ older_of turn older.old newer.old work.now)
        × (newer.new ≡ newer_of turn older.old newer.old work.now) }
{
    match turn {
        Turn::First | Turn::There => {}
        Turn::Second => {
            copy(newer, older);
            copy(work, newer);
        }
        Turn::Last => {
            copy(older, newer);
            copy(work, older);
        }
        Turn::Exchanged => exchange(older, newer),
    }
}
