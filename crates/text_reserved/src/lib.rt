// Names, and reserved words, told from them by length and first letter. Letter case is folded once, where a byte is read, and the letters behind the first
// are one number, so that they are compared at once.
#![tactic(auto)]

pub mod classes;
mod lengths;
mod words;

ghost use Rattle.std.specs.Prelude.{◌≡◌, true, ◌+◌, ◌*◌, ◌-◌, ◌%◌};
ghost use Rattle.paper.specs.Words.{between, letter, in_name};
ghost use Rattle.text_reserved.specs.Keys.{room, Folds, Begins, Packs};
ghost use Rattle.text_reserved.specs.Runs.{Counted};
ghost use Rattle.text_reserved.specs.Promise.{Named};

use classes::{goes_on, is_in_name};
use lengths::sort_of;
use words::BASE;

const CAPITAL_A: u64 = 65;

const CAPITAL_Z: u64 = 90;

// The bit that small letters have and capitals have not, and the one above it.
const CASE_BIT: u64 = 32;

const NEXT_BIT: u64 = 64;

// A byte with its letter case folded: without that bit a letter is its capital, and no other byte is one. As wide as the number that it goes into, since
// Arm has no arithmetic on bytes.
fn fold(b: u8) -> u64
    ensures { Folds b result }
{
    let w = b as u64;
    w % CASE_BIT + w / NEXT_BIT * NEXT_BIT
}

fn is_capital(folded: u64) -> bool
    ensures { result ≡ between 65 90 folded }
{
    if folded < CAPITAL_A {
        return false;
    }
    folded <= CAPITAL_Z
}

// A number below it has room in 64 bits for a letter more.
const ROOM: u64 = 576460752303423488;

// The number of some letters with one more behind them. It is cut first, so that any number of letters may follow, though the number of more than a reserved
// word has says nothing.
fn with_letter(rest: u64, folded: u64) -> u64
    requires { between 65 90 folded ≡ true }
    ensures { result ≡ rest % room * 32 + (folded - 65) }
{
    rest % ROOM * BASE + (folded - CAPITAL_A)
}

// Letters: how many, the first, folded, the number of those behind it, and whether a byte follows that goes on with a name. Where there is no letter the first
// is 0: the decision asks for it by length, so an Option would be taken apart for every name.
#[derive(Drop)]
struct Letters {
    length: usize,
    first: u8,
    rest: u64,
    more: bool,
}

// The letters that a text begins with, of which the first is one, counted and packed in one loop, since most bytes of a lesson are read here. Its index is
// counted by hand, as in name_length: a `for` over the places takes more instructions a byte.
fn letters_from(text: &[u8], first: u8) -> Letters
    requires { Begins text.now first }
    ensures { Packs text.now result.length result.first result.rest result.more }
{
    let mut length = 1;
    let mut rest: u64 = 0;
    while length < text.len() {
        let b = text[length];
        let folded = fold(b);
        if is_capital(folded) {
            rest = with_letter(rest, folded);
            length += 1;
        } else {
            let more = goes_on(b);
            return Letters {
                length,
                first,
                rest,
                more,
            };
        }
    }
    Letters {
        length,
        first,
        rest,
        more: false,
    }
}

fn no_letters(more: bool) -> Letters
    ensures { (result.length ≡ 0) × (result.first ≡ 0) × (result.rest ≡ 0) × (result.more ≡ more) }
{
    Letters {
        length: 0,
        first: 0,
        rest: 0,
        more,
    }
}

// The letters that a text begins with. The first is read apart, since the decision asks for it.
fn read_letters(text: &[u8]) -> Letters
    ensures { Packs text.now result.length result.first result.rest result.more }
{
    if text.len() == 0 {
        return no_letters(false);
    }
    let b = text[0];
    let folded = fold(b);
    if is_capital(folded) {
        return letters_from(text, folded as u8);
    }
    no_letters(goes_on(b))
}

// How many bytes go on with a name that begins with so many letters.
fn name_length(text: &[u8], letters: usize) -> usize
    requires { Counted letter text.now letters }
    ensures { Counted in_name text.now result }
{
    let mut n = letters;
    while n < text.len() {
        if is_in_name(text[n]) {
            n += 1;
        } else {
            return n;
        }
    }
    n
}

// The length of a name, and its sort: a reserved word's own, or that of a name.
#[derive(Drop)]
pub struct Name {
    pub length: usize,
    pub sort: u32,
}

// The name that a text begins with. No reserved word has a byte that is no letter, so only a name of nothing but letters may be one.
pub fn read_name(text: &[u8]) -> Name
    ensures { Named text.now result }
{
    let l = read_letters(text);
    let letters = l.length;
    let first = l.first;
    let rest = l.rest;
    let more = l.more;
    if more {
        let whole = name_length(text, letters);
        return Name {
            length: whole,
            sort: text_sorts::NAME,
        };
    }
    let sort = sort_of(letters, first, rest);
    Name {
        length: letters,
        sort,
    }
}
