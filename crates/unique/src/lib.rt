// That two results which a promise allows are equal, of promises whose own crates do not say it: docs/UNIQUENESS.md lists which theorem speaks of which function. Nothing here runs.
#![tactic(auto)]
