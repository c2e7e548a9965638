// General laws, of no crate in particular: see specs/ and proofs/. Nothing here runs.
#![tactic(auto)]
