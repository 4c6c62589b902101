// The head of a bundle: how many ops of each replica it has, and whether the bytes behind it agree
// (number 12).
#![tactic(auto)]

mod bits;
mod head;
mod whole;

pub use bits::head_bytes;
pub use head::{beyond_counts, head_byte, put_counts, total};
pub use whole::{head_size, is_whole};
