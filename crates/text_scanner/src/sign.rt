// A sign, or no word at all.
ghost use Rattle.std.specs.Prelude.{◌≡◌, ◌<◌, length};
ghost use Rattle.text_scanner.specs.Answers.{scan_of, pair_sort, sign_or_none};

use super::classes::{is_permitted, one_sign, two_signs};
use super::{Flaw, Scan, Token};
use layout::rules::Rule;

// The sort of the sign that a text's first two bytes are, or NOTHING. Signs of two bytes begin with a byte from : to >, so after any other first byte the
// second is not looked at.
fn pair_sort(text: &[u8]) -> u32
    requires { 0 < length text.now }
    ensures { result ≡ pair_sort text.now }
{
    let b = text[0];
    if b < b':' {
        return text_sorts::NOTHING;
    }
    if b'>' < b {
        return text_sorts::NOTHING;
    }
    if 1 < text.len() {
        return two_signs(b, text[1]);
    }
    text_sorts::NOTHING
}

// The word of a text that begins with no letter, digit or quote.
pub(crate) fn scan_sign(text: &[u8]) -> Scan
    requires { 0 < length text.now }
    ensures { scan_of result ≡ sign_or_none text.now }
{
    // one_sign tells the bytes apart that can begin a pair, so it comes first
    let sort = one_sign(text[0]);
    let pair = pair_sort(text);
    if pair != text_sorts::NOTHING {
        return Ok(Token {
            sort: pair,
            length: 2,
            value: 0,
        });
    }
    if sort != text_sorts::NOTHING {
        return Ok(Token {
            sort,
            length: 1,
            value: 0,
        });
    }
    // what begins a word is permitted, so only the other bytes are asked
    if is_permitted(text[0]) {
        return Err(Flaw::at_start(Rule::Malformed));
    }
    Err(Flaw::at_start(Rule::BadByte))
}
