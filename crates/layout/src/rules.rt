// What a module is refused for (specs/Rules.antt), in the order of the paper's table.
ghost use Rattle.std.specs.Prelude.{◌≡◌};
ghost use Rattle.layout.specs.Broken.{number_of};
ghost use Rattle.layout.specs.Named.{rules};

// A rule of the table: whoever breaks it first is refused for it.
#[derive(Clone, Copy, PartialEq, Eq)]
pub enum Rule {
    SmallStore,
    WrongDepth,
    LongText,
    BadByte,
    Malformed,
    TooLarge,
    ManyWords,
    NoForm,
    DeepNesting,
    TakenName,
    UnknownName,
    WrongKind,
    WrongType,
    WrongCount,
    NoValue,
    TooMany,
    Barred,
    NoMain,
    // a FOR variable named like a parameter or data of its routine; it comes between TakenName and UnknownName
    HidingLoop,
}

// Their numbers in the table.
pub const SMALL_STORE: u32 = 1;

pub const WRONG_DEPTH: u32 = 2;

pub const LONG_TEXT: u32 = 3;

pub const BAD_BYTE: u32 = 4;

pub const MALFORMED: u32 = 5;

pub const TOO_LARGE: u32 = 6;

pub const MANY_WORDS: u32 = 7;

pub const NO_FORM: u32 = 8;

pub const DEEP_NESTING: u32 = 9;

pub const TAKEN_NAME: u32 = 10;

pub const UNKNOWN_NAME: u32 = 11;

pub const WRONG_KIND: u32 = 12;

pub const WRONG_TYPE: u32 = 13;

pub const WRONG_COUNT: u32 = 14;

pub const NO_VALUE: u32 = 15;

pub const TOO_MANY: u32 = 16;

pub const BARRED: u32 = 17;

pub const NO_MAIN: u32 = 18;

pub const HIDING_LOOP: u32 = 19;

// All of them, as the specs name them: a wrong one breaks this contract.
pub fn all() -> [u32; 19]
    ensures { result ≡ rules }
{
    [
        SMALL_STORE,
        WRONG_DEPTH,
        LONG_TEXT,
        BAD_BYTE,
        MALFORMED,
        TOO_LARGE,
        MANY_WORDS,
        NO_FORM,
        DEEP_NESTING,
        TAKEN_NAME,
        UNKNOWN_NAME,
        WRONG_KIND,
        WRONG_TYPE,
        WRONG_COUNT,
        NO_VALUE,
        TOO_MANY,
        BARRED,
        NO_MAIN,
        HIDING_LOOP,
    ]
}

// The rule that a module breaks, and the word that breaks it.
#[derive(Clone, Copy, PartialEq, Eq)]
pub struct Breach {
    pub rule: Rule,
    pub word: usize,
}

impl Rule {
    // Its number in the table, which a host is told.
    pub fn number(self) -> u32
        ensures { result ≡ number_of self }
    {
        match self {
            Rule::SmallStore => SMALL_STORE,
            Rule::WrongDepth => WRONG_DEPTH,
            Rule::LongText => LONG_TEXT,
            Rule::BadByte => BAD_BYTE,
            Rule::Malformed => MALFORMED,
            Rule::TooLarge => TOO_LARGE,
            Rule::ManyWords => MANY_WORDS,
            Rule::NoForm => NO_FORM,
            Rule::DeepNesting => DEEP_NESTING,
            Rule::TakenName => TAKEN_NAME,
            Rule::UnknownName => UNKNOWN_NAME,
            Rule::WrongKind => WRONG_KIND,
            Rule::WrongType => WRONG_TYPE,
            Rule::WrongCount => WRONG_COUNT,
            Rule::NoValue => NO_VALUE,
            Rule::TooMany => TOO_MANY,
            Rule::Barred => BARRED,
            Rule::NoMain => NO_MAIN,
            Rule::HidingLoop => HIDING_LOOP,
        }
    }
}
