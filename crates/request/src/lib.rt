// What a caller asks to issue, and the tests of what it names.
#![tactic(auto)]

mod naming;
mod request;

pub use naming::{knows, knows_move, move_takes_work, unmarked};
pub use request::Request;
