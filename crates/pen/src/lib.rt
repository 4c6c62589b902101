// The pen of the listing: how much is written, and the writer of a line.
#![tactic(auto)]

mod decimal;
mod line;

pub use line::{Pen, line_size};
