// Two captures compared: where two lists differ first, in how many entries and by how much, and the
// lines that say so.
#![tactic(auto, using(text::proofs::Filling::puts))]

mod distances;
mod finding;
mod lines;
mod parts;
mod places;
mod sides;

pub use distances::{Spread, apart};
pub use finding::{Finding, find};
pub use lines::{agreement, refused_line};
pub use parts::{config_part, finding_part, pixels_part};
pub use places::first_place;
