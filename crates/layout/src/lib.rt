// The layout of both stores, and the numbers of the paper's tables, by name: the one home of these constants. A constant has no name in antt, so in each module one
// function tells them all, and its contract ties them to the definitions: ops and cells are those of crate code, the others stand in specs/ here.
#![tactic(auto)]

pub mod answers;
pub mod cells;
pub mod endings;
pub mod kinds;
pub mod levels;
pub mod limits;
pub mod ops;
pub mod parts;
pub mod rules;
pub mod types;
