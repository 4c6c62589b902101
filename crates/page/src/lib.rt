// The page (the document's live page): the judging order, the parents and the outcomes of a log, kept
// in three lent tables beside it by the calls that deliver or issue one op.
#![tactic(auto)]

mod answer;
mod delivering;
mod issuing;
mod renewing;

pub use answer::Paged;
pub use delivering::deliver;
pub use issuing::{issue_add, issue_move, issue_remove};
