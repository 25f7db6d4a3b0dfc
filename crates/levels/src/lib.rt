// What the points of a level are refused for.
#![tactic(auto)]

mod levels;

pub use levels::{is_beyond, is_unfixed, some_beyond};
