// The order in which the ops of a cut are replayed (the document's judging order), as data: their
// slots and timestamps, one after another.
#![tactic(auto)]

mod entries;
mod level;
mod ready;
mod writing;

pub use entries::{Entry, OPS, Schedule};
pub use writing::write_order;
