// The calls on a replica's log in a lent buffer. Every call takes any bytes, and a refused call
// changes none of them.
#![tactic(auto)]

mod delivering;
mod issuing;
mod judging;
mod making;

pub use delivering::deliver;
pub use issuing::{issue_add, issue_move, issue_remove};
pub use judging::judge;
pub use making::make;
