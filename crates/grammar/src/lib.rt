// The paper's grammar: which words are a module, as a relation between words and trees, and what the paper's parser has to do with it. Nothing here runs.
#![tactic(auto)]
