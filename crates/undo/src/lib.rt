// Replay that can be taken back: ops are judged along entries of a schedule, and beside the tables of
// the replay two more keep what each op overwrote. So a replay is carried from one cut to another at
// the cost of the ops behind the first in which they differ.
#![tactic(auto)]

mod along;
mod carrying;
mod keeping;

pub use carrying::first_beyond;
pub use keeping::Undoable;
