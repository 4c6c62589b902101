// Lent tables beside those of a judgement: whether they are long enough, whether they show it, and
// filling them.
#![tactic(auto)]

mod tables;

pub use tables::{fill, long_enough, shows};
