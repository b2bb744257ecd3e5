// The record once a call has come to its time: the clock moves and what has come to its end ends; and the edges of the
// reset line. What is lent is not looked at.
#![tactic(auto)]

mod ends;
mod resets;

pub use ends::arrive;
pub use resets::{edge_notes, reset_edge};
