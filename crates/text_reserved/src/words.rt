// The reserved words, each spelled by its letters behind the first, since a constant can name letters and call nothing; and with its sort.
#[derive(Drop)]
pub struct Word {
    pub rest: u64,
    pub sort: u32,
}

// Letters behind the first are one number to this base, with the last one as its last digit. They are compared with those of a word that has as many.
pub const BASE: u64 = 32;

const A: u64 = 0;

const B: u64 = 1;

const C: u64 = 2;

const D: u64 = 3;

const E: u64 = 4;

const F: u64 = 5;

const G: u64 = 6;

const H: u64 = 7;

const I: u64 = 8;

const J: u64 = 9;

const K: u64 = 10;

const L: u64 = 11;

const M: u64 = 12;

const N: u64 = 13;

const O: u64 = 14;

const P: u64 = 15;

const Q: u64 = 16;

const R: u64 = 17;

const S: u64 = 18;

const T: u64 = 19;

const U: u64 = 20;

const V: u64 = 21;

const W: u64 = 22;

const X: u64 = 23;

const Y: u64 = 24;

const Z: u64 = 25;

pub const ALIAS: Word = Word {
    rest: ((L * BASE + I) * BASE + A) * BASE + S,
    sort: text_sorts::ALIAS,
};

pub const AND: Word = Word {
    rest: N * BASE + D,
    sort: text_sorts::AND,
};

pub const BACKWARD: Word = Word {
    rest: (((((A * BASE + C) * BASE + K) * BASE + W) * BASE + A) * BASE + R) * BASE + D,
    sort: text_sorts::BACKWARD,
};

pub const BOOL: Word = Word {
    rest: (O * BASE + O) * BASE + L,
    sort: text_sorts::BOOL,
};

pub const CASE: Word = Word {
    rest: (A * BASE + S) * BASE + E,
    sort: text_sorts::CASE,
};

pub const CONNECT: Word = Word {
    rest: ((((O * BASE + N) * BASE + N) * BASE + E) * BASE + C) * BASE + T,
    sort: text_sorts::CONNECT,
};

pub const CONST: Word = Word {
    rest: ((O * BASE + N) * BASE + S) * BASE + T,
    sort: text_sorts::CONST,
};

pub const DEFAULT: Word = Word {
    rest: ((((E * BASE + F) * BASE + A) * BASE + U) * BASE + L) * BASE + T,
    sort: text_sorts::DEFAULT,
};

pub const DIV: Word = Word {
    rest: I * BASE + V,
    sort: text_sorts::DIV,
};

pub const DO: Word = Word {
    rest: O,
    sort: text_sorts::DO,
};

pub const ELSE: Word = Word {
    rest: (L * BASE + S) * BASE + E,
    sort: text_sorts::ELSE,
};

pub const ELSEIF: Word = Word {
    rest: (((L * BASE + S) * BASE + E) * BASE + I) * BASE + F,
    sort: text_sorts::ELSEIF,
};

pub const ENDFOR: Word = Word {
    rest: (((N * BASE + D) * BASE + F) * BASE + O) * BASE + R,
    sort: text_sorts::ENDFOR,
};

pub const ENDFUNC: Word = Word {
    rest: ((((N * BASE + D) * BASE + F) * BASE + U) * BASE + N) * BASE + C,
    sort: text_sorts::ENDFUNC,
};

pub const ENDIF: Word = Word {
    rest: ((N * BASE + D) * BASE + I) * BASE + F,
    sort: text_sorts::ENDIF,
};

pub const ENDMODULE: Word = Word {
    rest: ((((((N * BASE + D) * BASE + M) * BASE + O) * BASE + D) * BASE + U) * BASE + L) * BASE
        + E,
    sort: text_sorts::ENDMODULE,
};

pub const ENDPROC: Word = Word {
    rest: ((((N * BASE + D) * BASE + P) * BASE + R) * BASE + O) * BASE + C,
    sort: text_sorts::ENDPROC,
};

pub const ENDRECORD: Word = Word {
    rest: ((((((N * BASE + D) * BASE + R) * BASE + E) * BASE + C) * BASE + O) * BASE + R) * BASE
        + D,
    sort: text_sorts::ENDRECORD,
};

pub const ENDTEST: Word = Word {
    rest: ((((N * BASE + D) * BASE + T) * BASE + E) * BASE + S) * BASE + T,
    sort: text_sorts::ENDTEST,
};

pub const ENDTRAP: Word = Word {
    rest: ((((N * BASE + D) * BASE + T) * BASE + R) * BASE + A) * BASE + P,
    sort: text_sorts::ENDTRAP,
};

pub const ENDWHILE: Word = Word {
    rest: (((((N * BASE + D) * BASE + W) * BASE + H) * BASE + I) * BASE + L) * BASE + E,
    sort: text_sorts::ENDWHILE,
};

pub const ERROR: Word = Word {
    rest: ((R * BASE + R) * BASE + O) * BASE + R,
    sort: text_sorts::ERROR,
};

pub const EXIT: Word = Word {
    rest: (X * BASE + I) * BASE + T,
    sort: text_sorts::EXIT,
};

pub const FALSE: Word = Word {
    rest: ((A * BASE + L) * BASE + S) * BASE + E,
    sort: text_sorts::FALSE,
};

pub const FOR: Word = Word {
    rest: O * BASE + R,
    sort: text_sorts::FOR,
};

pub const FROM: Word = Word {
    rest: (R * BASE + O) * BASE + M,
    sort: text_sorts::FROM,
};

pub const FUNC: Word = Word {
    rest: (U * BASE + N) * BASE + C,
    sort: text_sorts::FUNC,
};

pub const GOTO: Word = Word {
    rest: (O * BASE + T) * BASE + O,
    sort: text_sorts::GOTO,
};

pub const IF: Word = Word {
    rest: F,
    sort: text_sorts::IF,
};

pub const INOUT: Word = Word {
    rest: ((N * BASE + O) * BASE + U) * BASE + T,
    sort: text_sorts::INOUT,
};

pub const LOCAL: Word = Word {
    rest: ((O * BASE + C) * BASE + A) * BASE + L,
    sort: text_sorts::LOCAL,
};

pub const MOD: Word = Word {
    rest: O * BASE + D,
    sort: text_sorts::MOD,
};

pub const MODULE: Word = Word {
    rest: (((O * BASE + D) * BASE + U) * BASE + L) * BASE + E,
    sort: text_sorts::MODULE,
};

pub const NOSTEPIN: Word = Word {
    rest: (((((O * BASE + S) * BASE + T) * BASE + E) * BASE + P) * BASE + I) * BASE + N,
    sort: text_sorts::NOSTEPIN,
};

pub const NOT: Word = Word {
    rest: O * BASE + T,
    sort: text_sorts::NOT,
};

pub const NOVIEW: Word = Word {
    rest: (((O * BASE + V) * BASE + I) * BASE + E) * BASE + W,
    sort: text_sorts::NOVIEW,
};

pub const NUM: Word = Word {
    rest: U * BASE + M,
    sort: text_sorts::NUM,
};

pub const OR: Word = Word {
    rest: R,
    sort: text_sorts::OR,
};

pub const PERS: Word = Word {
    rest: (E * BASE + R) * BASE + S,
    sort: text_sorts::PERS,
};

pub const PROC: Word = Word {
    rest: (R * BASE + O) * BASE + C,
    sort: text_sorts::PROC,
};

pub const RAISE: Word = Word {
    rest: ((A * BASE + I) * BASE + S) * BASE + E,
    sort: text_sorts::RAISE,
};

pub const READONLY: Word = Word {
    rest: (((((E * BASE + A) * BASE + D) * BASE + O) * BASE + N) * BASE + L) * BASE + Y,
    sort: text_sorts::READONLY,
};

pub const RECORD: Word = Word {
    rest: (((E * BASE + C) * BASE + O) * BASE + R) * BASE + D,
    sort: text_sorts::RECORD,
};

pub const RETRY: Word = Word {
    rest: ((E * BASE + T) * BASE + R) * BASE + Y,
    sort: text_sorts::RETRY,
};

pub const RETURN: Word = Word {
    rest: (((E * BASE + T) * BASE + U) * BASE + R) * BASE + N,
    sort: text_sorts::RETURN,
};

pub const STEP: Word = Word {
    rest: (T * BASE + E) * BASE + P,
    sort: text_sorts::STEP,
};

pub const SYSMODULE: Word = Word {
    rest: ((((((Y * BASE + S) * BASE + M) * BASE + O) * BASE + D) * BASE + U) * BASE + L) * BASE
        + E,
    sort: text_sorts::SYSMODULE,
};

pub const TEST: Word = Word {
    rest: (E * BASE + S) * BASE + T,
    sort: text_sorts::TEST,
};

pub const THEN: Word = Word {
    rest: (H * BASE + E) * BASE + N,
    sort: text_sorts::THEN,
};

pub const TO: Word = Word {
    rest: O,
    sort: text_sorts::TO,
};

pub const TPREADNUM: Word = Word {
    rest: ((((((P * BASE + R) * BASE + E) * BASE + A) * BASE + D) * BASE + N) * BASE + U) * BASE
        + M,
    sort: text_sorts::TPREADNUM,
};

pub const TPWRITE: Word = Word {
    rest: ((((P * BASE + W) * BASE + R) * BASE + I) * BASE + T) * BASE + E,
    sort: text_sorts::TPWRITE,
};

pub const TRAP: Word = Word {
    rest: (R * BASE + A) * BASE + P,
    sort: text_sorts::TRAP,
};

pub const TRUE: Word = Word {
    rest: (R * BASE + U) * BASE + E,
    sort: text_sorts::TRUE,
};

pub const TRYNEXT: Word = Word {
    rest: ((((R * BASE + Y) * BASE + N) * BASE + E) * BASE + X) * BASE + T,
    sort: text_sorts::TRYNEXT,
};

pub const UNDO: Word = Word {
    rest: (N * BASE + D) * BASE + O,
    sort: text_sorts::UNDO,
};

pub const VAR: Word = Word {
    rest: A * BASE + R,
    sort: text_sorts::VAR,
};

pub const VIEWONLY: Word = Word {
    rest: (((((I * BASE + E) * BASE + W) * BASE + O) * BASE + N) * BASE + L) * BASE + Y,
    sort: text_sorts::VIEWONLY,
};

pub const WHILE: Word = Word {
    rest: ((H * BASE + I) * BASE + L) * BASE + E,
    sort: text_sorts::WHILE,
};

pub const WITH: Word = Word {
    rest: (I * BASE + T) * BASE + H,
    sort: text_sorts::WITH,
};

pub const XOR: Word = Word {
    rest: O * BASE + R,
    sort: text_sorts::XOR,
};
