#![tactic(auto)]

// Functions on lists and truth values, and their laws: no code.
