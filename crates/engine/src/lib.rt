// The engine: every call that a maker embeds, and the types that they take and answer.
#![tactic(auto)]

pub use block::{block, block_in_place};
pub use pluck::{pluck, pluck_with};
pub use reading::{reading, reading_value};
pub use sheet::{Loss, Sheet, Speed, settings_for, settings_read};
pub use types::{BlockAnswer, Grid, Hit, Instrument, Outcome, Refusal, Settings, number_of};
