// A dump through the controller: the configuration's making, and then the events, one call after the
// other.
#![tactic(auto)]

mod playing;
mod words;

pub use playing::{CONFIG_BYTES, finish, make, play};
pub use words::{Turn, play_words};
