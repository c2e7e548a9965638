// A whole class in one call, as definitions and theorems over the paper's single call: see specs/. Nothing here runs.
#![tactic(auto)]
