// The operation log (the document's collection) in a lent buffer: its header, the places of its ops,
// a marker through them, and adding ops. Ops have `width` bytes.
#![tactic(auto)]

mod append;
mod header;
mod marker;
mod places;

pub use append::{append_ops, put_front, with_more};
pub use header::{count_at, counts_of, end_of, header_right, write_header};
pub use marker::Marker;
pub use places::{place, same_op};
