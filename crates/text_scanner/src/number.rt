// A number.
ghost use Rattle.std.specs.Prelude.{◌≡◌, ◌+◌, ◌*◌, ◌-◌, ◌≤◌, ◌<◌, get_or};
ghost use Rattle.paper.specs.Words.{largest_number, spoils_number, scan_number};
ghost use Rattle.text_scanner.specs.Answers.{scan_of, capped, value_bound, Digits·of};

use super::classes::is_spoiling;
use super::{Flaw, Scan, Token};
use layout::limits;
use layout::rules::Rule;
use text_reserved::classes::is_digit;

// Digits: how many, and the number that they write, or some number above the largest in its place.
#[derive(Drop)]
struct Digits {
    length: usize,
    value: u64,
}

// A value with one digit more; one that is too large already stays as it is.
fn with_digit(value: u64, b: u8) -> u64
    requires { (48 ≤ b) × (b ≤ 57) × (value < value_bound) }
    ensures { (capped result ≡ capped (value * 10 + (b - 48))) × (result < value_bound) }
{
    if limits::NUMBER_READ < value {
        return value;
    }
    value * 10 + ((b - b'0') as u64)
}

// The index is counted by hand: a `for` over the places takes more instructions a byte.
fn read_digits(text: &[u8]) -> Digits
    ensures { Digits·of text.now result.length result.value }
{
    let mut length = 0;
    let mut value: u64 = 0;
    while length < text.len() {
        let b = text[length];
        if is_digit(b) {
            value = with_digit(value, b);
            length += 1;
        } else {
            return Digits { length, value };
        }
    }
    Digits { length, value }
}

// Whether the byte at a place spoils a number before it.
fn is_spoiled(text: &[u8], at: usize) -> bool
    ensures { result ≡ spoils_number (get_or text.now at 0) }
{
    if at < text.len() {
        return is_spoiling(text[at]);
    }
    false
}

pub(crate) fn scan_number(text: &[u8]) -> Scan
    ensures { scan_of result ≡ scan_number largest_number text.now }
{
    let d = read_digits(text);
    let length = d.length;
    let value = d.value;
    if is_spoiled(text, length) {
        return Err(Flaw::at_start(Rule::Malformed));
    }
    if limits::NUMBER_READ < value {
        return Err(Flaw::at_start(Rule::TooLarge));
    }
    Ok(Token {
        sort: text_sorts::NUMBER,
        length,
        value,
    })
}
