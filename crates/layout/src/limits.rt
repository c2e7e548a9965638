// The paper's limits, and the sizes of what is lent.
ghost use Rattle.std.specs.Prelude.{◌≡◌};
ghost use Rattle.layout.specs.Named.{limits};

// bytes of a text, and its words
pub const TEXT: usize = 32768;

pub const WORDS: usize = 8192;

// routines, words of the module's data, of a routine's, elements of an array
pub const ROUTINES: usize = 64;

pub const MODULE_WORDS: usize = 1024;

pub const ROUTINE_WORDS: usize = 64;

pub const ELEMENTS: usize = 512;

// the same where words are counted, and where a size is still a number
pub const MODULE_COUNT: u32 = MODULE_WORDS as u32;

pub const ROUTINE_COUNT: u32 = ROUTINE_WORDS as u32;

pub const ELEMENT_COUNT: i64 = ELEMENTS as i64;

// live calls
pub const DEPTH: usize = 64;

// cells of a store, and its bytes
pub const STORE_CELLS: usize = 16384;

pub const STORE_BYTES: usize = 65536;

// letters of a name, characters of a string, the largest number of a text, how deep statements nest, and how deep expressions
pub const NAME: usize = 32;

pub const STRING: usize = 80;

pub const NUMBER: usize = 8388608;

pub const NESTINGS: usize = 16;

// The same as a reading counts them.
pub const WORDS_READ: u32 = WORDS as u32;

pub const STRING_READ: u32 = STRING as u32;

pub const NUMBER_READ: u64 = NUMBER as u64;

// bytes of the record
pub const RECORD_BYTES: usize = 64;

// live calls, as a call counts them
pub const DEEPEST: u32 = DEPTH as u32;

// All of them, as the specs name them: a wrong one breaks this contract.
pub fn all() -> [usize; 14]
    ensures { result ≡ limits }
{
    [
        TEXT,
        WORDS,
        ROUTINES,
        MODULE_WORDS,
        ROUTINE_WORDS,
        ELEMENTS,
        DEPTH,
        STORE_CELLS,
        STORE_BYTES,
        NAME,
        STRING,
        NUMBER,
        NESTINGS,
        RECORD_BYTES,
    ]
}
