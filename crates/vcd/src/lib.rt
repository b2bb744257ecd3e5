// A Value Change Dump of a bus (IEEE 1364, four-state) as the events that it makes.
#![tactic(auto)]

mod judging;

pub use judging::{Fault, judge, verdict};
