// The steps of a block, on three levels or on two, in slices that take turns.
// What ties one value to another stays a clause: a row to its grid, a stretch to the slice that it is put into, a pass to its room.
#![tactic(auto)]

mod arithmetic;
mod basis;
mod call;
mod layout;
mod level;
mod neighbours;
mod pieces;
mod plates;
mod play;
mod points;
mod step;
mod within;

pub use call::{InTurn, steps_in_place, steps_in_turn};
