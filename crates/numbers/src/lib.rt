// One number for each answer, for callers in other languages.
#![tactic(auto)]

mod answer;

pub use answer::{Reply, number, page_number};
