// What the check leaves in the code store of a whole module, and that the paper's program is read back from it. Nothing here runs.
#![tactic(auto)]
