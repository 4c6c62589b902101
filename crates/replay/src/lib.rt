// Replay (the document's judging) of the ops within a cut of a log to the tables of parents, outcomes
// and times: their order is written, and then they are applied along it.
#![tactic(auto)]

mod along;
mod cut;

pub use cut::{replay_all, replay_cut, start};
