// A string.
ghost use Rattle.std.specs.Prelude.{◌≡◌, not, eqb, get_or};
ghost use Rattle.paper.specs.Words.{permitted_inside, scan_string};
ghost use Rattle.text_scanner.specs.Answers.{scan_of, noted, closed_string};

use super::classes::{is_barred, is_permitted_inside};
use super::{Flaw, Scan, Token};
use layout::limits;
use layout::rules::Rule;

// The place of the first byte that is permitted nowhere, or 0, once the byte at a place is passed too.
fn note(bad: usize, at: usize, b: u8) -> usize
    ensures { result ≡ noted bad at (permitted_inside b) }
{
    if is_permitted_inside(b) {
        return bad;
    }
    if bad == 0 {
        return at;
    }
    bad
}

// Whether a string ends before a place, after a quote: it does unless a second quote follows.
fn ends_before(text: &[u8], at: usize) -> bool
    ensures { result ≡ not (eqb (get_or text.now at 0) 34) }
{
    if at < text.len() {
        return text[at] != b'"';
    }
    true
}

// A string of n bytes that is closed, short enough and has no barred byte.
fn closed(n: usize, bad: usize) -> Scan
    ensures { scan_of result ≡ closed_string n bad }
{
    if bad == 0 {
        return Ok(Token {
            sort: text_sorts::STRING,
            length: n,
            value: 0,
        });
    }
    Err(Flaw {
        after: bad,
        rule: Rule::BadByte,
    })
}

// The string that a text begins with, in one pass: a byte that is permitted nowhere counts only in a string that is closed, so its place is kept.
// A quote that is doubled takes two bytes, so the place is moved by hand. A byte at place 0 is the string's quote, so 0 says that there was none: an Option would
// be written at every byte.
pub(crate) fn scan_string(text: &[u8]) -> Scan
    requires { get_or text.now 0 0 ≡ 34 }
    ensures { scan_of result ≡ scan_string text.now }
{
    let mut room = limits::STRING_READ;
    let mut bad = 0;
    let mut n = 1;
    while n < text.len() {
        let b = text[n];
        if b == b'"' {
            n += 1;
            if ends_before(text, n) {
                return closed(n, bad);
            }
        } else {
            if is_barred(b) {
                return Err(Flaw::at_start(Rule::Malformed));
            }
            bad = note(bad, n, b);
        }
        // the byte at n is the character's last
        if room == 0 {
            return Err(Flaw::at_start(Rule::Malformed));
        }
        room -= 1;
        n += 1;
    }
    Err(Flaw::at_start(Rule::Malformed))
}
