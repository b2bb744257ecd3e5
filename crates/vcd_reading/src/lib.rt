// A dump read part by part, however it is cut: what a cut leaves open is carried on.
//
// Two lent buffers are the reader's own: one keeps the dump's first bytes, which must hold its
// declarations and a word behind them; the other a word that a cut leaves open.
#![tactic(auto)]

mod carrying;
mod closing;
mod reader;
mod reading;

pub use closing::{Closed, Limit, close};
pub use reader::{Reader, Stage, start};
pub use reading::{Step, part};
