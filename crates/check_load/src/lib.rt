// The checker's first pass: the words of a text go into the code store, two cells each, and names get their numbers.
// Both stores are lent one by one: check_statements says why.
#![tactic(auto)]

ghost use Rattle.std.specs.Prelude.{◌≡◌, ◌+◌, ◌*◌, ◌<◌, ◌≤◌, length};
ghost use Rattle.check_names.specs.Promises.{store_bytes};
ghost use Rattle.check_load.specs.Layout.{Chain, Finds, Loading, NameComes, Comes, Goes, Valued, value_of};
ghost use Rattle.check_load.specs.Loads.{Ready, Filled, Loads};

use check_names::MEANINGS;
use check_spelling::{hash, protected, same};
use layout::parts;
use store_writing::rewrite;
use text_words::{Cursor, Refusal, Word};

// Chains of names that have one hash begin in the cells of the value store from here on, as many as there are hashes.
const FIRST_BUCKET: usize = 4096;

const BUCKETS: usize = 2048;

// By a walk along links: the first name with a text in the chain that begins as given.
fn find<'a>(text: &'a [u8], code: &'a [u8], name: &'a [u8], first: usize) -> Option<usize>
    requires { Chain text.now code.now name.now first }
    ensures { Finds text.now name.now first result }
{
    let mut j = first;
    while j != 0 {
        let i = j - 1;
        let tail = store_cells::get(code, i * 2 + 1);
        let place = (tail % parts::LINK) as usize;
        let end = place
            + (store_cells::get(code, i * 2) / parts::VALUE) as usize / parts::SPELLED_AT;
        if same(&text[place..end], name) {
            return Some(i);
        }
        j = (tail / parts::LINK) as usize;
    }
    None
}

// A name: it gets the number of the first name of its spelling. A new name has its own, begins its chain, and has what it means if it is protected.
fn load_name(text: &[u8], code: &mut [u8], values: &mut [u8], i: usize, place: usize, length: usize)
    requires { Loading text.now i code.old values.old × NameComes text.now i place length }
    ensures { Goes text.now i code.old values.old code.new values.new }
{
    let end = place + length;
    let bucket = FIRST_BUCKET + hash(&text[place..end]);
    let first = store_cells::get(values, bucket) as usize;
    if let Some(found) = find(text, code, &text[place..end], first) {
        rewrite(
            code,
            i,
            text_sorts::NAME + parts::VALUE * ((found + parts::SPELLED_AT * length) as u32),
            place,
            0,
        );
        return;
    }
    let meaning = protected(&text[place..end]);
    rewrite(
        code,
        i,
        text_sorts::NAME + parts::VALUE * ((i + parts::SPELLED_AT * length) as u32),
        place,
        first,
    );
    store_cells::put(values, bucket, (i + 1) as u32);
    store_cells::put(values, MEANINGS + i, meaning);
}

// The value of a word that is no name.
fn value_of(w: Word) -> u32
    requires { Valued w }
    ensures { (result ≡ value_of w) × (result < 16777216) }
{
    if w.sort == text_sorts::STRING {
        return w.length as u32;
    }
    w.value as u32
}

// The next word.
fn load_word(text: &[u8], code: &mut [u8], values: &mut [u8], i: usize, w: Word)
    requires { Loading text.now i code.old values.old × Comes text.now i w }
    ensures { Goes text.now i code.old values.old code.new values.new }
{
    if w.sort == text_sorts::NAME {
        load_name(text, code, values, i, w.place, w.length);
        return;
    }
    rewrite(code, i, w.sort + parts::VALUE * value_of(w), w.place, 0);
}

// How many words there are.
pub type Loaded = Result<usize, Refusal>;

// Loads a text's words one after another. The chains of names stay.
fn load_words(text: &[u8], code: &mut [u8], values: &mut [u8]) -> Loaded
    requires { Ready code.old values.old }
    ensures { Filled text.now code.old values.old result code.new values.new }
{
    let mut c = Cursor::start();
    loop {
        let words = c.words as usize;
        let Some((word, next)) = c.step(text)? else {
            return Ok(words);
        };
        load_word(text, code, values, words, word);
        c = next;
    }
}

// Loads a text's words. The value store's cells are 0 before.
pub fn load(text: &[u8], code: &mut [u8], values: &mut [u8]) -> Loaded
    requires { Ready code.old values.old }
    ensures { Loads text.now code.old values.old result code.new values.new }
{
    let loaded = load_words(text, code, values);
    store_cells::clear(values, FIRST_BUCKET, BUCKETS);
    loaded
}
