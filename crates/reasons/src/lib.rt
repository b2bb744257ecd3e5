// The words of a refusal, for a person who must find the fault in a capture file or a configuration:
// which test of 8 or 9 failed first and where, and the text that says so.
#![tactic(auto, using(text::proofs::Filling::puts))]

mod causes;
mod events;
mod finding;
mod groups;
mod wording;

pub use causes::Reason;
pub use finding::{config_reason, reason};
pub use groups::grouped;
pub use wording::{because, config_length, words};
