// The nodes of a tree in preorder: what is hidden, first children and next siblings, and the tour.
#![tactic(auto)]

mod hiding;
mod linking;
mod touring;

pub use hiding::reveal_all;
pub use linking::link;
pub use touring::{Visit, tour};
