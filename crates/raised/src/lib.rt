// What holds of every error that is raised: a law on the paper's definitions. Nothing here runs.
#![tactic(auto)]
