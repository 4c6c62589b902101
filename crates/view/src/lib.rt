// What users see of a log: the path of a node, and the listing of a view. Every call takes any
// bytes, and a refused call changes nothing.
#![tactic(auto)]

mod answer;
mod lines;
mod linking;
mod listings;
mod paths;
mod sizes;

pub use answer::View;
pub use listings::listing;
pub use paths::path;
pub use sizes::listing_size;
