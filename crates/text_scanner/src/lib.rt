// One word at the front of a text, and what lies between words.
#![tactic(auto)]

mod classes;
mod name;
mod number;
mod sign;
mod string;

ghost use Rattle.std.specs.Prelude.{◌≡◌};
ghost use Rattle.text_scanner.specs.Answers.{Scanned, Skipped, Commented};

use classes::{is_permitted_inside, is_separator};
use layout::rules::Rule;
use text_reserved::classes::{is_digit, is_letter};

// A word at the front of a text.
#[derive(Clone, Copy)]
pub struct Token {
    pub sort: u32,
    pub length: usize,
    // of a number; else 0
    pub value: u64,
}

// Why a text begins with no word: the rule that it breaks, so many bytes after its start.
#[derive(Clone, Copy)]
pub struct Flaw {
    pub rule: Rule,
    pub after: usize,
}

impl Flaw {
    fn at_start(rule: Rule) -> Flaw
        ensures { result ≡ record { after = 0; rule = rule } }
    {
        Flaw { after: 0, rule }
    }
}

pub type Scan = Result<Token, Flaw>;

// The word that a text begins with. An empty text begins with no permitted byte.
pub fn scan_word(text: &[u8]) -> Scan
    ensures { Scanned text.now result }
{
    if text.len() == 0 {
        return Err(Flaw::at_start(Rule::BadByte));
    }
    let b = text[0];
    if is_letter(b) {
        return name::scan_name(text);
    }
    if is_digit(b) {
        return number::scan_number(text);
    }
    if b == b'"' {
        return string::scan_string(text);
    }
    sign::scan_sign(text)
}

// The place of a byte in a comment that is permitted nowhere.
#[derive(Clone, Copy)]
pub struct BadByte {
    pub place: usize,
}

// Where the next word starts, or the text ends.
pub type Gap = Result<usize, BadByte>;

// Where a comment ends that is open at a place: after its LF, or at the end of the text. That place, and a gap's, may lie behind the text, and is answered then,
// which a `for` over the places would not do.
fn comment_end(text: &[u8], at: usize) -> Gap
    ensures { Commented text.now at result }
{
    let mut place = at;
    while place < text.len() {
        let b = text[place];
        if b == b'\n' {
            return Ok(place + 1);
        }
        if is_permitted_inside(b) {
            place += 1;
        } else {
            return Err(BadByte { place });
        }
    }
    Ok(place)
}

// What lies before the next word, from a place on: separators and comments.
pub fn skip_gap(text: &[u8], at: usize) -> Gap
    ensures { Skipped text.now at result }
{
    let mut place = at;
    while place < text.len() {
        let b = text[place];
        if is_separator(b) {
            place += 1;
        } else {
            if b != b'!' {
                return Ok(place);
            }
            place = comment_end(text, place + 1)?;
        }
    }
    Ok(place)
}
