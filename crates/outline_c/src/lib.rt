// The calls of the library for programs in other languages: each answers one number, and lent
// memory is a pointer and a length. include/outline.h declares them for C.
#![tactic(auto)]

mod batches;
mod bundles;
mod calls;
mod holdbacks;
mod pages;

pub use batches::outline_issue_moves;
pub use bundles::{outline_bundle_make, outline_bundle_open};
pub use calls::{
    outline_counts, outline_deliver, outline_end, outline_is_sound, outline_issue_add,
    outline_issue_move, outline_issue_remove, outline_judge, outline_listing, outline_listing_size,
    outline_make, outline_path, outline_version,
};
pub use holdbacks::outline_holdback_deliver;
pub use pages::{
    outline_page_deliver, outline_page_issue_add, outline_page_issue_move,
    outline_page_issue_remove,
};
