// The sorts of words by name. A constant has no name in antt, so one function tells them all, and its contract ties them to the paper.
// Numbers, and no enum: the paper numbers them, text_scanner::scan_word promises these numbers, and cells of lent bytes hold them.
#![tactic(auto)]

ghost use Rattle.std.specs.Prelude.{◌≡◌};
ghost use Rattle.paper.specs.Expressions.{starts_data, starts_routine, starts_simple, starts_statement, level_of};
ghost use Rattle.text_sorts.specs.Named.{named};
ghost use Rattle.text_sorts.specs.Starts.{starts_compound};

use layout::levels;

pub const NOTHING: u32 = 0;

pub const NAME: u32 = 1;

pub const NUMBER: u32 = 2;

pub const STRING: u32 = 3;

// Signs, in the order of the paper.
pub const FIRST_SIGN: u32 = 4;

pub const SEMICOLON: u32 = 4;

pub const COMMA: u32 = 5;

pub const OPEN_PAREN: u32 = 6;

pub const CLOSE_PAREN: u32 = 7;

pub const OPEN_BRACE: u32 = 8;

pub const CLOSE_BRACE: u32 = 9;

pub const COLON: u32 = 10;

pub const BECOMES: u32 = 11;

pub const EQUAL: u32 = 12;

pub const LESS: u32 = 13;

pub const LESS_EQUAL: u32 = 14;

pub const UNEQUAL: u32 = 15;

pub const GREATER: u32 = 16;

pub const GREATER_EQUAL: u32 = 17;

pub const PLUS: u32 = 18;

pub const MINUS_SIGN: u32 = 19;

pub const TIMES: u32 = 20;

pub const BACKSLASH: u32 = 21;

// Reserved words, in the order of the paper.
pub const FIRST_RESERVED: u32 = 32;

pub const ALIAS: u32 = 32;

pub const AND: u32 = 33;

pub const BACKWARD: u32 = 34;

pub const CASE: u32 = 35;

pub const CONNECT: u32 = 36;

pub const CONST: u32 = 37;

pub const DEFAULT: u32 = 38;

pub const DIV: u32 = 39;

pub const DO: u32 = 40;

pub const ELSE: u32 = 41;

pub const ELSEIF: u32 = 42;

pub const ENDFOR: u32 = 43;

pub const ENDFUNC: u32 = 44;

pub const ENDIF: u32 = 45;

pub const ENDMODULE: u32 = 46;

pub const ENDPROC: u32 = 47;

pub const ENDRECORD: u32 = 48;

pub const ENDTEST: u32 = 49;

pub const ENDTRAP: u32 = 50;

pub const ENDWHILE: u32 = 51;

pub const ERROR: u32 = 52;

pub const EXIT: u32 = 53;

pub const FALSE: u32 = 54;

pub const FOR: u32 = 55;

pub const FROM: u32 = 56;

pub const FUNC: u32 = 57;

pub const GOTO: u32 = 58;

pub const IF: u32 = 59;

pub const INOUT: u32 = 60;

pub const LOCAL: u32 = 61;

pub const MOD: u32 = 62;

pub const MODULE: u32 = 63;

pub const NOSTEPIN: u32 = 64;

pub const NOT: u32 = 65;

pub const NOVIEW: u32 = 66;

pub const OR: u32 = 67;

pub const PERS: u32 = 68;

pub const PROC: u32 = 69;

pub const RAISE: u32 = 70;

pub const READONLY: u32 = 71;

pub const RECORD: u32 = 72;

pub const RETRY: u32 = 73;

pub const RETURN: u32 = 74;

pub const STEP: u32 = 75;

pub const SYSMODULE: u32 = 76;

pub const TEST: u32 = 77;

pub const THEN: u32 = 78;

pub const TO: u32 = 79;

pub const TRAP: u32 = 80;

pub const TRUE: u32 = 81;

pub const TRYNEXT: u32 = 82;

pub const UNDO: u32 = 83;

pub const VAR: u32 = 84;

pub const VIEWONLY: u32 = 85;

pub const WHILE: u32 = 86;

pub const WITH: u32 = 87;

pub const XOR: u32 = 88;

pub const NUM: u32 = 89;

pub const BOOL: u32 = 90;

pub const TPWRITE: u32 = 91;

pub const TPREADNUM: u32 = 92;

fn all() -> [u32; 85]
    ensures { result ≡ named }
{
    [
        NOTHING,
        NAME,
        NUMBER,
        STRING,
        FIRST_SIGN,
        FIRST_RESERVED,
        SEMICOLON,
        COMMA,
        OPEN_PAREN,
        CLOSE_PAREN,
        OPEN_BRACE,
        CLOSE_BRACE,
        COLON,
        BECOMES,
        EQUAL,
        LESS,
        LESS_EQUAL,
        UNEQUAL,
        GREATER,
        GREATER_EQUAL,
        PLUS,
        MINUS_SIGN,
        TIMES,
        BACKSLASH,
        ALIAS,
        AND,
        BACKWARD,
        CASE,
        CONNECT,
        CONST,
        DEFAULT,
        DIV,
        DO,
        ELSE,
        ELSEIF,
        ENDFOR,
        ENDFUNC,
        ENDIF,
        ENDMODULE,
        ENDPROC,
        ENDRECORD,
        ENDTEST,
        ENDTRAP,
        ENDWHILE,
        ERROR,
        EXIT,
        FALSE,
        FOR,
        FROM,
        FUNC,
        GOTO,
        IF,
        INOUT,
        LOCAL,
        MOD,
        MODULE,
        NOSTEPIN,
        NOT,
        NOVIEW,
        OR,
        PERS,
        PROC,
        RAISE,
        READONLY,
        RECORD,
        RETRY,
        RETURN,
        STEP,
        SYSMODULE,
        TEST,
        THEN,
        TO,
        TRAP,
        TRUE,
        TRYNEXT,
        UNDO,
        VAR,
        VIEWONLY,
        WHILE,
        WITH,
        XOR,
        NUM,
        BOOL,
        TPWRITE,
        TPREADNUM,
    ]
}

// ---- what a word of a sort starts

// A declaration of data begins with a word of that sort.
#[tactic(auto, unfolding(paper::specs::Expressions::starts_data))]
pub fn starts_data(s: u32) -> bool
    ensures { result ≡ starts_data s }
{
    matches!(s, VAR | CONST)
}

// A routine begins with a word of that sort.
#[tactic(auto, unfolding(paper::specs::Expressions::starts_routine))]
pub fn starts_routine(s: u32) -> bool
    ensures { result ≡ starts_routine s }
{
    matches!(s, PROC | FUNC)
}

// A simple statement begins with a word of that sort.
#[tactic(auto, unfolding(paper::specs::Expressions::starts_simple))]
pub fn starts_simple(s: u32) -> bool
    ensures { result ≡ starts_simple s }
{
    matches!(
        s,
        NAME | RETURN | RAISE | EXIT | RETRY | TRYNEXT | TPWRITE | TPREADNUM
    )
}

// A compound statement begins with a word of that sort.
#[tactic(auto, unfolding(crate::specs::Starts::starts_compound))]
pub fn starts_compound(s: u32) -> bool
    ensures { result ≡ starts_compound s }
{
    matches!(s, IF | FOR | WHILE | TEST)
}

// A statement begins with a word of that sort.
#[tactic(auto, unfolding(paper::specs::Expressions::starts_statement, crate::specs::Starts::starts_compound))]
pub fn starts_statement(s: u32) -> bool
    ensures { result ≡ starts_statement s }
{
    starts_simple(s) || starts_compound(s)
}

// ---- operators

// The level of an operator by its sort; none for a word that is no operator.
#[tactic(auto, unfolding(paper::specs::Expressions::level_of))]
pub fn level_of(s: u32) -> u32
    ensures { result ≡ level_of s }
{
    match s {
        TIMES | DIV | MOD => levels::PRODUCTS,
        PLUS | MINUS_SIGN => levels::SUMS,
        EQUAL | UNEQUAL | LESS | LESS_EQUAL | GREATER | GREATER_EQUAL => levels::RELATIONS,
        AND => levels::CONJUNCTIONS,
        OR | XOR => levels::DISJUNCTIONS,
        _ => levels::NONE,
    }
}
