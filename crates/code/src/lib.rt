// What the two stores hold between check and run: see specs/. Nothing here runs.
#![tactic(auto)]
