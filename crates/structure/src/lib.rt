// Structural soundness of a file, and the tests of an op against the log in it: 5 and 6 of its vector, 7 of the nodes
// that it names. Ops have `width` bytes.
#![tactic(auto)]

mod closed;
mod names;
mod sound;
mod turn;

pub use closed::closed_in;
pub use names::{known_in, known_parent, names_known};
pub use sound::structural;
