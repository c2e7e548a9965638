// Ops: what the low byte of a word's head says once the check has passed it (code/specs/Spans.antt, Steps.antt).
// Numbers, and no enum: cells of lent bytes hold them, and a step is chosen by the number as it stands there, with nothing to decode.
ghost use Rattle.std.specs.Prelude.{◌≡◌, map};
ghost use Rattle.code.specs.Spans.{operator_of, operators};
ghost use Rattle.layout.specs.Named.{ops};

// ---- operands of one word
pub const LITERAL: u32 = 1;

pub const MODULE_SLOT: u32 = 2;

pub const CALL_SLOT: u32 = 3;

// ---- operands of several
pub const MODULE_ELEMENT: u32 = 4;

pub const CALL_ELEMENT: u32 = 5;

pub const PARENTHESIS: u32 = 6;

pub const NOT: u32 = 7;

pub const PLUS: u32 = 8;

pub const MINUS: u32 = 9;

// ---- an operator: its number in the low four bits, and above it how its right side is given
pub const OPERATOR: u32 = 64;

// ---- steps. A target: a word of the module, of the call; an element of the module's, of the call's; and the same where a call's result goes to it.
pub const TARGET: u32 = 128;

pub const CALL_TARGET: u32 = 132;

pub const PROCEDURE_CALL: u32 = 136;

pub const RETURN_OF: u32 = 137;

pub const RETURN: u32 = 138;

pub const RAISE_OF: u32 = 139;

pub const RAISE: u32 = 140;

pub const EXIT: u32 = 141;

pub const RETRY: u32 = 142;

pub const TRY_NEXT: u32 = 143;

pub const WRITE: u32 = 144;

pub const WRITE_OF: u32 = 145;

pub const READ: u32 = 146;

pub const COMPACT_IF: u32 = 147;

pub const IF: u32 = 148;

pub const WHILE: u32 = 149;

pub const FOR: u32 = 150;

pub const FOR_TEST: u32 = 151;

pub const TEST: u32 = 152;

pub const END: u32 = 153;

pub const FUNCTION_END: u32 = 154;

pub const UNDO_END: u32 = 155;

// ---- words that are no steps
pub const ELSE_IF: u32 = 240;

pub const STEP: u32 = 241;

pub const CASE: u32 = 242;

// a comma between the values of a CASE
pub const NEXT_VALUE: u32 = 243;

// a comma between two arguments
pub const NEXT_ARGUMENT: u32 = 244;

// VAR or CONST of a routine
pub const DATUM: u32 = 245;

// the parenthesis before a routine's parameters
pub const PARAMETERS: u32 = 246;

pub const THEN: u32 = 247;

pub const DO: u32 = 248;

// where a list goes on that ends here
pub const PASS: u32 = 249;

// DEFAULT, or an ENDTEST without one
pub const OTHERWISE: u32 = 250;

// the semicolon of a procedure call
pub const CLOSE: u32 = 251;

// ---- how an operator's right side is given: as a span up to its link; else as an operand of one word, by that one's op
pub const SPAN: u32 = 0;

// ---- the numbers of the operators, in the order of code/specs/Spans.antt
pub const SUM: u32 = 0;

pub const DIFFERENCE: u32 = 1;

pub const PRODUCT: u32 = 2;

pub const DIV: u32 = 3;

pub const MOD: u32 = 4;

pub const LESS: u32 = 5;

pub const LESS_EQUAL: u32 = 6;

pub const GREATER: u32 = 7;

pub const GREATER_EQUAL: u32 = 8;

pub const EQUAL: u32 = 9;

pub const UNEQUAL: u32 = 10;

pub const XOR: u32 = 11;

pub const AND: u32 = 12;

pub const OR: u32 = 13;

// the targets one by one, which patterns name
pub const TARGET_IN_CALL: u32 = TARGET + 1;

pub const TARGET_ELEMENT: u32 = TARGET + 2;

pub const TARGET_ELEMENT_IN_CALL: u32 = TARGET + 3;

pub const CALL_TARGET_IN_CALL: u32 = CALL_TARGET + 1;

pub const CALL_TARGET_ELEMENT: u32 = CALL_TARGET + 2;

pub const CALL_TARGET_ELEMENT_IN_CALL: u32 = CALL_TARGET + 3;

// All of them, as the specs name them: a wrong one breaks this contract.
pub fn all() -> [u32; 45]
    ensures { result ≡ ops }
{
    [
        LITERAL,
        MODULE_SLOT,
        CALL_SLOT,
        MODULE_ELEMENT,
        CALL_ELEMENT,
        PARENTHESIS,
        NOT,
        PLUS,
        MINUS,
        OPERATOR,
        TARGET,
        CALL_TARGET,
        PROCEDURE_CALL,
        RETURN_OF,
        RETURN,
        RAISE_OF,
        RAISE,
        EXIT,
        RETRY,
        TRY_NEXT,
        WRITE,
        WRITE_OF,
        READ,
        COMPACT_IF,
        IF,
        WHILE,
        FOR,
        FOR_TEST,
        TEST,
        END,
        FUNCTION_END,
        UNDO_END,
        ELSE_IF,
        STEP,
        CASE,
        NEXT_VALUE,
        NEXT_ARGUMENT,
        DATUM,
        PARAMETERS,
        THEN,
        DO,
        PASS,
        OTHERWISE,
        CLOSE,
        SPAN,
    ]
}

// The numbers of the operators: each is the place of its operator among the specs' ones.
pub fn numbers() -> [u32; 14]
    ensures { map operator_of result ≡ operators }
{
    [
        SUM,
        DIFFERENCE,
        PRODUCT,
        DIV,
        MOD,
        LESS,
        LESS_EQUAL,
        GREATER,
        GREATER_EQUAL,
        EQUAL,
        UNEQUAL,
        XOR,
        AND,
        OR,
    ]
}
