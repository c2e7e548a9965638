// Classes of bytes: what the paper says of one byte, by comparisons. Those that most bytes of a lesson pass come first.
// Each test returns early: as one value of all tests, by || or over patterns, they make reading a string take four fifths more instructions.
ghost use Rattle.std.specs.Prelude.{◌≡◌, [], ◌∷◌, ◌<◌, ◌≤◌};
ghost use Rattle.paper.specs.Sorts.{sign_sort};
ghost use Rattle.paper.specs.Words.{spoils_number, barred_in_string, separates, permitted, permitted_inside};

use text_reserved::classes::{in_range, is_letter};

pub(crate) fn is_spoiling(b: u8) -> bool
    ensures { result ≡ spoils_number b }
{
    // what follows most numbers: a blank, a closing parenthesis, a comma
    if b < b'.' {
        return false;
    }
    if is_letter(b) {
        return true;
    }
    if b == b'_' {
        return true;
    }
    b == b'.'
}

pub(crate) fn is_barred(b: u8) -> bool
    ensures { result ≡ barred_in_string b }
{
    // the test that is_permitted begins with, so that a string's bytes are asked it once
    if in_range(b, 0x20, 0x7e) {
        return b == b'\\';
    }
    if b == b'\r' {
        return true;
    }
    b == b'\n'
}

pub(crate) fn is_separator(b: u8) -> bool
    ensures { result ≡ separates b }
{
    if b == b' ' {
        return true;
    }
    if b == b'\t' {
        return true;
    }
    if b == b'\r' {
        return true;
    }
    b == b'\n'
}

pub(crate) fn is_permitted(b: u8) -> bool
    ensures { result ≡ permitted b }
{
    if in_range(b, 0x20, 0x7e) {
        return true;
    }
    if b == b'\t' {
        return true;
    }
    if b == b'\n' {
        return true;
    }
    b == b'\r'
}

pub(crate) fn is_permitted_inside(b: u8) -> bool
    ensures { result ≡ permitted_inside b }
{
    if is_permitted(b) {
        return true;
    }
    in_range(b, 0xa0, 0xff)
}

// A sign's sort is the number of the paper's list of signs (sign_sort), in which NOTHING is that of no sign: an Option would say the same twice.
// The signs of one byte from ( on. Signs of one byte stand in two short ranges, with three bytes after them: a compiler makes a match over a short
// range a look at a table, and one over all of them a jump, which costs more.
fn early_sign(b: u8) -> u32
    requires { b < 58 }
    ensures { result ≡ sign_sort (b ∷ []) }
{
    match b {
        b'(' => text_sorts::OPEN_PAREN,
        b')' => text_sorts::CLOSE_PAREN,
        b'*' => text_sorts::TIMES,
        b'+' => text_sorts::PLUS,
        b',' => text_sorts::COMMA,
        b'-' => text_sorts::MINUS_SIGN,
        _ => text_sorts::NOTHING,
    }
}

// The signs from : to >.
fn middle_sign(b: u8) -> u32
    requires { (58 ≤ b) × (b ≤ 62) }
    ensures { result ≡ sign_sort (b ∷ []) }
{
    match b {
        b':' => text_sorts::COLON,
        b';' => text_sorts::SEMICOLON,
        b'<' => text_sorts::LESS,
        b'=' => text_sorts::EQUAL,
        _ => text_sorts::GREATER,
    }
}

// A backslash and braces.
fn late_sign(b: u8) -> u32
    requires { 62 < b }
    ensures { result ≡ sign_sort (b ∷ []) }
{
    match b {
        b'\\' => text_sorts::BACKSLASH,
        b'{' => text_sorts::OPEN_BRACE,
        b'}' => text_sorts::CLOSE_BRACE,
        _ => text_sorts::NOTHING,
    }
}

// The sort of the sign that is this one byte, or NOTHING.
pub(crate) fn one_sign(b: u8) -> u32
    ensures { result ≡ sign_sort (b ∷ []) }
{
    if b < b':' {
        return early_sign(b);
    }
    if b'>' < b {
        return late_sign(b);
    }
    middle_sign(b)
}

// The sort of the sign that is these two bytes, or NOTHING.
pub(crate) fn two_signs(b: u8, c: u8) -> u32
    ensures { result ≡ sign_sort (b ∷ c ∷ []) }
{
    if c == b'=' {
        if b == b':' {
            return text_sorts::BECOMES;
        }
        if b == b'<' {
            return text_sorts::LESS_EQUAL;
        }
        if b == b'>' {
            return text_sorts::GREATER_EQUAL;
        }
        return text_sorts::NOTHING;
    }
    if c == b'>' {
        if b == b'<' {
            return text_sorts::UNEQUAL;
        }
    }
    text_sorts::NOTHING
}
