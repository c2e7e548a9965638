// Cells of the value store (code/specs/Cells.antt, Windows.antt): the module's words, then a window for each live call; in main's window also what the run counts.
ghost use Rattle.std.specs.Prelude.{◌≡◌};
ghost use Rattle.layout.specs.Named.{cells};

// main's window, and how many cells a window has
pub const FIRST_WINDOW: usize = 1024;

pub const WINDOW: usize = 240;

// ---- cells of a window, behind the call's words: where the loop of a variable's word ends, and its step
pub const ENDS: usize = 64;

pub const STEPS: usize = 128;

// the word that its routine begins with
pub const ROUTINE: usize = 192;

// the call statement that it waits for, and the step after that one
pub const WAITS: usize = 193;

pub const AFTER: usize = 194;

// the failed step, 0 while it is not in its ERROR list
pub const FAILED: usize = 195;

// 1 more than the cell that its result goes to, 0 if it is not called for one
pub const RESULT: usize = 196;

// ---- cells of the run: bytes of output written, and inputs used, each in two cells, the low half first; ERRNO
pub const WRITTEN: usize = 1259;

pub const USED: usize = 1261;

pub const ERRNO: usize = 1263;

// what a cell counts to: a number in two cells has its high half above it
pub const HALF: usize = 4294967296;

// the cell of main's window that has its routine, and the high halves of the two counts
pub const MAIN_ROUTINE: usize = FIRST_WINDOW + ROUTINE;

pub const WRITTEN_HIGH: usize = WRITTEN + 1;

pub const USED_HIGH: usize = USED + 1;

// as a word's value has it
pub const ERRNO_VALUE: u32 = ERRNO as u32;

// All of them, as the specs name them: a wrong one breaks this contract.
pub fn all() -> [usize; 13]
    ensures { result ≡ cells }
{
    [
        FIRST_WINDOW,
        WINDOW,
        ENDS,
        STEPS,
        ROUTINE,
        WAITS,
        AFTER,
        FAILED,
        RESULT,
        WRITTEN,
        USED,
        ERRNO,
        HALF,
    ]
}
