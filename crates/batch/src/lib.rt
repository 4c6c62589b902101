// A batch (the document's column): moves of several nodes to one parent, issued by one call. Every
// call takes any bytes, and a refused call changes none of them.
#![tactic(auto)]

mod drafting;
mod issuing;
mod planning;
mod putting;

pub use issuing::issue_moves;
