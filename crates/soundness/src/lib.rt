// Whether a buffer holds a sound log, which every call tests first; and where its file ends, and how
// many ops of each replica it holds.
#![tactic(auto)]

mod check;
mod measure;

pub use check::{LARGEST, WIDTH, is_sound};
pub use measure::{file_end, held_counts};
