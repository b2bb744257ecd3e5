// A dump of an analyser: played in lent buffers as it is read, once, and then written: the panel's
// lines, or its last picture as a file that any viewer opens.
//
// What the program says of a dump that is turned back stands here too.
#![tactic(auto)]

mod finding;
mod job;
mod pieces;
mod playing;
mod reading;
mod telling;
mod writing;

pub use job::run;
pub use output::Form;
pub use playing::Came;
