// The bytes of a holdback (the document's tray): number 14, the ops that wait in its places, an op
// more and an op less.
#![tactic(auto)]

mod places;

pub use places::{PLACES, count, free_place, is_holdback, is_waiting, put_last};
