// The steps of issuing an op at a sound log: a request is drafted as an op, which is put out and added.
#![tactic(auto)]

mod draft;
mod drafting;
mod opening;
mod putting;

pub use draft::Draft;
pub use drafting::{draft_move, has_left};
pub use opening::issue_sound;
