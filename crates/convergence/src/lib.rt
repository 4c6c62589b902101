#![tactic(auto)]

// Theorems only: see proofs/, and rules/specs for what they say.
