// The lists of a routine that hold statements (specs/Around.antt).

#[derive(Clone, Copy, PartialEq, Eq)]
pub enum WhichList {
    Body,
    // its ERROR list
    Handler,
    Undo,
}
