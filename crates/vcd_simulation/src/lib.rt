// The simulation of a Value Change Dump (IEEE 1364): its times and value changes, and the events on
// the bus that they make.
#![tactic(auto)]

mod body;
mod change;
mod emit;
mod feeding;
mod word;

pub use body::{Body, Wanted, begun, is_over};
pub use feeding::{Fed, feed};
