// The effect of one op on the tables of a replay: parents, outcomes, and the times of moves.
#![tactic(auto)]

mod tables;

pub use tables::Tables;
