// The demands on the bench as theorems about the paper: see specs/. Nothing here runs.
#![tactic(auto)]
