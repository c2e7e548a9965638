// The faults that the paper finds: where they lie in the text, and which of them is answered. Nothing here runs.
#![tactic(auto)]
