// Reserved words are told from names by a decision: by length, then by the first letter, and then by the letters behind it. What it decides between:
//
//   letters | words, those with the same first letter together
//         2 | DO, IF, OR, TO
//         3 | AND, DIV, FOR, MOD, NOT NUM, VAR, XOR
//         4 | BOOL, CASE, (DNUM), ELSE EXIT, FROM FUNC, GOTO, PERS PROC, STEP, TEST THEN TRAP TRUE, UNDO, WITH
//         5 | ALIAS, CONST, ENDIF ERROR, FALSE, INOUT, LOCAL, RAISE RETRY, (SETDO), WHILE
//         6 | ELSEIF ENDFOR, MODULE, NOVIEW, RECORD RETURN
//         7 | CONNECT, DEFAULT, ENDFUNC ENDPROC ENDTEST ENDTRAP, TPWRITE TRYNEXT
//         8 | BACKWARD, ENDWHILE, NOSTEPIN, READONLY, VIEWONLY
//         9 | ENDMODULE ENDRECORD, SYSMODULE, TPREADNUM
//
// In parentheses: where the words of two later requests will stand. A word itself is spelled in words.rt.
ghost use Rattle.std.specs.Prelude.{◌≡◌, [], ◌∷◌};
ghost use Rattle.text_reserved.specs.Keys.{chosen, candidates, or_else};

use super::words;
use super::words::Word;

// The word's sort, if these are its letters behind the first, or else the other. Apart, so that the compiler makes a choice of it and not a jump; so there is
// also a function for one, two and four words, and no loop over a slice of them.
fn when(rest: u64, word: Word, other: u32) -> u32
    ensures { result ≡ or_else word rest other }
{
    if rest == word.rest {
        return word.sort;
    }
    other
}

// The sort of the one word that a name may be here, or a name's.
fn only(rest: u64, a: Word) -> u32
    ensures { result ≡ chosen (a ∷ []) rest }
{
    when(rest, a, text_sorts::NAME)
}

fn either(rest: u64, a: Word, b: Word) -> u32
    ensures { result ≡ chosen (a ∷ b ∷ []) rest }
{
    when(rest, a, only(rest, b))
}

fn among(rest: u64, a: Word, b: Word, c: Word, d: Word) -> u32
    ensures { result ≡ chosen (a ∷ b ∷ c ∷ d ∷ []) rest }
{
    when(rest, a, when(rest, b, either(rest, c, d)))
}

// A function a length: the words of so many letters, by the first of them.
fn two(first: u8, rest: u64) -> u32
    ensures { result ≡ chosen (candidates 2 first) rest }
{
    match first {
        b'D' => only(rest, words::DO),
        b'I' => only(rest, words::IF),
        b'O' => only(rest, words::OR),
        b'T' => only(rest, words::TO),
        _ => text_sorts::NAME,
    }
}

fn three(first: u8, rest: u64) -> u32
    ensures { result ≡ chosen (candidates 3 first) rest }
{
    match first {
        b'A' => only(rest, words::AND),
        b'D' => only(rest, words::DIV),
        b'F' => only(rest, words::FOR),
        b'M' => only(rest, words::MOD),
        b'N' => either(rest, words::NOT, words::NUM),
        b'V' => only(rest, words::VAR),
        b'X' => only(rest, words::XOR),
        _ => text_sorts::NAME,
    }
}

fn four(first: u8, rest: u64) -> u32
    ensures { result ≡ chosen (candidates 4 first) rest }
{
    match first {
        b'B' => only(rest, words::BOOL),
        b'C' => only(rest, words::CASE),
        b'E' => either(rest, words::ELSE, words::EXIT),
        b'F' => either(rest, words::FROM, words::FUNC),
        b'G' => only(rest, words::GOTO),
        b'P' => either(rest, words::PERS, words::PROC),
        b'S' => only(rest, words::STEP),
        b'T' => among(rest, words::TEST, words::THEN, words::TRAP, words::TRUE),
        b'U' => only(rest, words::UNDO),
        b'W' => only(rest, words::WITH),
        _ => text_sorts::NAME,
    }
}

fn five(first: u8, rest: u64) -> u32
    ensures { result ≡ chosen (candidates 5 first) rest }
{
    match first {
        b'A' => only(rest, words::ALIAS),
        b'C' => only(rest, words::CONST),
        b'E' => either(rest, words::ENDIF, words::ERROR),
        b'F' => only(rest, words::FALSE),
        b'I' => only(rest, words::INOUT),
        b'L' => only(rest, words::LOCAL),
        b'R' => either(rest, words::RAISE, words::RETRY),
        b'W' => only(rest, words::WHILE),
        _ => text_sorts::NAME,
    }
}

fn six(first: u8, rest: u64) -> u32
    ensures { result ≡ chosen (candidates 6 first) rest }
{
    match first {
        b'E' => either(rest, words::ELSEIF, words::ENDFOR),
        b'M' => only(rest, words::MODULE),
        b'N' => only(rest, words::NOVIEW),
        b'R' => either(rest, words::RECORD, words::RETURN),
        _ => text_sorts::NAME,
    }
}

fn seven(first: u8, rest: u64) -> u32
    ensures { result ≡ chosen (candidates 7 first) rest }
{
    match first {
        b'C' => only(rest, words::CONNECT),
        b'D' => only(rest, words::DEFAULT),
        b'E' => among(
            rest,
            words::ENDFUNC,
            words::ENDPROC,
            words::ENDTEST,
            words::ENDTRAP,
        ),
        b'T' => either(rest, words::TPWRITE, words::TRYNEXT),
        _ => text_sorts::NAME,
    }
}

fn eight(first: u8, rest: u64) -> u32
    ensures { result ≡ chosen (candidates 8 first) rest }
{
    match first {
        b'B' => only(rest, words::BACKWARD),
        b'E' => only(rest, words::ENDWHILE),
        b'N' => only(rest, words::NOSTEPIN),
        b'R' => only(rest, words::READONLY),
        b'V' => only(rest, words::VIEWONLY),
        _ => text_sorts::NAME,
    }
}

fn nine(first: u8, rest: u64) -> u32
    ensures { result ≡ chosen (candidates 9 first) rest }
{
    match first {
        b'E' => either(rest, words::ENDMODULE, words::ENDRECORD),
        b'S' => only(rest, words::SYSMODULE),
        b'T' => only(rest, words::TPREADNUM),
        _ => text_sorts::NAME,
    }
}

// The sort of a name of so many letters and no other byte: a reserved word's own, or that of a name.
pub(crate) fn sort_of(length: usize, first: u8, rest: u64) -> u32
    ensures { result ≡ chosen (candidates length first) rest }
{
    match length {
        2 => two(first, rest),
        3 => three(first, rest),
        4 => four(first, rest),
        5 => five(first, rest),
        6 => six(first, rest),
        7 => seven(first, rest),
        8 => eight(first, rest),
        9 => nine(first, rest),
        _ => text_sorts::NAME,
    }
}
