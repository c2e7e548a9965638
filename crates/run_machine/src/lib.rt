// What each part of the machine asks and promises of a step, and how the two stores hold the state of a run. Nothing here runs.
// A step takes the stores, its call's window and its word one by one: so its type says which store it writes, and a struct of them would be taken apart in each
// contract.
// It answers one number, also where it fails: layout/src/answers.rt says why. Ops, and 0 for none, are compared as the numbers that stand in the cells.
#![tactic(auto)]
