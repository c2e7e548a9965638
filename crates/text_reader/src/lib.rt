// The word reader: it holds a lent text and its place there, and reads one word after another. Each of its functions is thin: it takes the reader apart, and
// the reading of `text_words` does the work on the text and the cursor. A place and how many words came before are plain numbers, for a caller that holds no
// cursor.
#![tactic(auto)]

ghost use Rattle.std.specs.Prelude.{◌≡◌};
ghost use Rattle.text_reader.specs.Reads.{opened, moved_to, Read};

use text_words::{Cursor, Step};

#[derive(Drop)]
pub struct Reader<'a> {
    pub text: &'a [u8],
    pub place: usize,
    // how many words have been read
    pub words: u32,
}

// The next word of a text, at a place, after so many words.
pub fn word_at(text: &[u8], place: usize, words: u32) -> Step
    ensures { Read text.now place words result }
{
    Cursor { place, words }.step(text)
}

// A reader at the first byte of a text.
pub fn open<'a>(text: &'a [u8]) -> Reader<'a>
    ensures { result ≡ opened text.entry }
{
    Reader {
        text,
        place: 0,
        words: 0,
    }
}

// The word that comes next.
pub fn next<'a>(r: Reader<'a>) -> Step
    ensures { Read r.entry.text.now r.entry.place r.entry.words result }
{
    word_at(r.text, r.place, r.words)
}

// The reader at another place of its text, after so many words.
pub fn moved<'a>(r: Reader<'a>, place: usize, words: u32) -> Reader<'a>
    ensures { result ≡ moved_to r.entry place words }
{
    Reader {
        text: r.text,
        place,
        words,
    }
}

// The next word of a text, by a reader there: whoever has a plain text and a cursor reads with this.
pub fn read(text: &[u8], place: usize, words: u32) -> Step
    ensures { Read text.now place words result }
{
    next(moved(open(text), place, words))
}
