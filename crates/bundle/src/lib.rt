// Bundles (the document's parcels): all ops of a log beyond another's counts, in one piece, for a
// replica that one meets. Every call takes any bytes, and a refused call changes nothing.
#![tactic(auto)]

mod bodies;
mod making;
mod opening;

pub use making::make;
pub use opening::open;
