// Bytes to numbers and back: two-byte words, and the reader and writer of an op (the document's record); what a
// call answers.
#![tactic(auto)]

mod answer;
mod field;
mod kind;
mod op;
mod word;

pub use answer::{Delivered, Refusal};
pub use field::{kind_at, node_at, parent_at, replica_at, vector_at};
pub use kind::{Kind, NoKind};
pub use op::{Fields, is_replica, kind_fits, read_op, write_op};
pub use word::{put_word, word_at};
