// Where statements stand, for all who check them: what is known there is in specs/Around.antt, what is answered in specs/Answers.antt.
#![tactic(auto)]

pub mod lists;

use layout::rules::Breach;
use layout::types::ValueType;
use lists::WhichList;

// What is answered of a piece of a routine: the word after it; or the rule broken, and its word.
pub type Stepped = Result<usize, Breach>;

// Where a statement stands.
#[derive(Clone, Copy)]
pub struct Setting {
    // the type of what its routine gives back; none in a PROC
    pub result: Option<ValueType>,
    // in which of its lists
    pub list: WhichList,
}
