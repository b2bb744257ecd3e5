// What the words of a Value Change Dump (IEEE 1364) say: times, sizes, values, and which signal a
// reference names.
#![tactic(auto)]

mod levels;
mod names;
mod numbers;
mod reals;
mod selects;
mod times;

pub use levels::{UNKNOWN, level, vector_level};
pub use names::{Name, Pin, signal};
pub use reals::is_real;
pub use times::{Width, size, time};
