// Version vectors (the document's contexts) by value: read, and compared several counts at once.
#![tactic(auto)]

mod counts;

pub use counts::{is_step, read_vector, within};
