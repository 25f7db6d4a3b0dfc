// The checks that a pluck makes before it is carried out, and a block's checks of its input.
#![tactic(auto)]

mod groups;
mod refusals;

pub use refusals::{Pluck, input_refusal, pluck_refusal};
