// Marking another simulator, request 14: definitions and theorems, see specs/. Nothing here runs.
#![tactic(auto)]
