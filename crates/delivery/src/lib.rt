// The steps of delivering an op to a sound log, and the addition of an op, which issuing shares.
#![tactic(auto)]

mod adding;
mod delivering;

pub use adding::{accept, last_test};
pub use delivering::{deliver_next, deliver_read};
