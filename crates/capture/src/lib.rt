// The capture file (document 01, "The capture program"): what turns a file back, its configuration,
// and where its events end.
#![tactic(auto)]

mod kinds;
mod layout;
mod reading;
mod refusals;
mod words;

pub use kinds::{ADVANCE, COMMAND, DATA, EVENT_BYTES, NO_READ, NOTHING, READ, RESET, VCOM_RULE};
pub use layout::{config, config_of, pixels};
pub use reading::{Capture, read};
pub use refusals::{MOST_EVENTS, MOST_PIXELS, bad_config, listed, too_many};
pub use words::{byte, little};
