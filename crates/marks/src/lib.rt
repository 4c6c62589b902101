// The marks (tombstones in the field): a table that tells which nodes ops remove, and what the held
// counts know of a node by it.
#![tactic(auto)]

mod knowing;
mod marking;

pub use knowing::{Knowledge, knowledge_of};
pub use marking::mark_ops;
