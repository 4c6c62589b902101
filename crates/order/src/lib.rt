#![tactic(auto)]

// Laws only: see specs/ and proofs/.
