// What a step answers (specs/Answers.antt): the next step; or one of these with a step, an ending or a word below it; or an error.
// It is one number, and no Result: a Result<i64, E> comes back through memory. A small recursion made to measure that took 1.6 times the instructions, and a lesson is to get no slower.
ghost use Rattle.std.specs.Prelude.{◌≡◌};
ghost use Rattle.layout.specs.Named.{answers};

use crate::endings::Ending;

pub const ENTERED: i64 = 65536;

pub const LEFT: i64 = 131072;

pub const ENDED: i64 = 196608;

// endings 6 to 8, one after another
pub const LACKED: i64 = 262144;

// plain RAISE
pub const HANDED: i64 = 458752;

// an error's number is above it
pub const FIRST_ERROR: i64 = 4294967296;

// The same as words count.
pub const ANSWERS: usize = 65536;

pub const ENTRIES: usize = ENTERED as usize;

pub const LEAVINGS: usize = LEFT as usize;

pub const ENDINGS: usize = ENDED as usize;

pub const LACKS: usize = LACKED as usize;

pub const ERRORS: usize = FIRST_ERROR as usize;

// endings that a step answers with nothing below them, and those that lack something
pub const MAIN_RETURNED: i64 = ENDED + Ending::MainReturned as i64;

pub const EXITED: i64 = ENDED + Ending::Exited as i64;

pub const FELL_OFF: i64 = ENDED + Ending::FellOff as i64;

pub const NO_INPUT: usize = LACKS
    + ANSWERS * (Ending::NoInput as usize - Ending::BeyondDepth as usize);

pub const NO_ROOM: usize = LACKS
    + ANSWERS * (Ending::NoRoom as usize - Ending::BeyondDepth as usize);

// All of them, as the specs name them: a wrong one breaks this contract.
pub fn all() -> [i64; 6]
    ensures { result ≡ answers }
{
    [ENTERED, LEFT, ENDED, LACKED, HANDED, FIRST_ERROR]
}
