// The listing for the pendant, whose screen program is written in C: numbers and byte slices only. Numbers are written as four bytes, low byte first.
#![tactic(auto)]

ghost use Rattle.std.specs.Prelude.{◌≡◌, ◌+◌, ◌*◌, ◌%◌, ◌≤◌, length};
ghost use Rattle.paper.specs.Words.{kind_of};
ghost use Rattle.call_listing.specs.Listing.{kind_number, entered, listed_of, three_put, summary_put, Listed·all, Exported};

use text_sorts::{FIRST_RESERVED, FIRST_SIGN, NUMBER, STRING};
use text_words::{Cursor, Refusal, Word};

// The bytes of three numbers: an entry has as many, and the answer.
const THREE: usize = 12;

// The low 32 bits of a number.
fn low32(v: usize) -> u32
    ensures { result ≡ v % 4294967296 }
{
    (v % 4294967296) as u32
}

// Makes the three words from index i on be the low 32 bits of three numbers.
fn put_three(out: &mut [u8], i: usize, a: usize, b: usize, c: usize)
    requires { i * 4 + 12 ≤ length out.old }
    ensures { out.new ≡ three_put out.old (i * 4) a b c }
{
    store_cells::put(out, i, low32(a));
    store_cells::put(out, i + 1, low32(b));
    store_cells::put(out, i + 2, low32(c));
}

// Name 0, reserved 1, number 2, string 3, sign 4: the numbers that C is told.
fn kind_number(sort: u32) -> usize
    ensures { result ≡ kind_number (kind_of sort) }
{
    if FIRST_RESERVED <= sort {
        return 1;
    }
    if FIRST_SIGN <= sort {
        return 4;
    }
    if sort == STRING {
        return 3;
    }
    if sort == NUMBER {
        return 2;
    }
    0
}

// The entry of a word at its index, where there is room for it.
fn put_entry(out: &mut [u8], index: u32, word: Word)
    ensures { out.new ≡ entered out.old index (listed_of word) }
{
    let i = (index as usize) * 3;
    if out.len() < i * 4 + THREE {
        return;
    }
    put_three(out, i, kind_number(word.sort), word.place, word.length);
}

// How a listing ends: how many words there are, and the refusal, if there is one.
#[derive(Drop)]
struct Summary {
    words: u32,
    refusal: Option<Refusal>,
}

// Lists a text, one word after another, by the word reader.
fn list(text: &[u8], out: &mut [u8]) -> Summary
    ensures { Listed·all text.now out.old out.new result }
{
    let mut c = Cursor::start();
    loop {
        let words = c.words;
        match text_reader::read(text, c.place, words) {
            Ok(Some((word, next))) => {
                put_entry(out, words, word);
                c = next;
            }
            Ok(None) => {
                return Summary {
                    words,
                    refusal: None,
                };
            }
            Err(refusal) => {
                return Summary {
                    words,
                    refusal: Some(refusal),
                };
            }
        }
    }
}

// The end of a listing in the answer: the refusal's number and its place, 0 at 0 where there is none.
fn put_summary(answer: &mut [u8], s: Summary)
    requires { 12 ≤ length answer.old }
    ensures { answer.new ≡ summary_put answer.old s }
{
    let words = s.words as usize;
    match s.refusal {
        Some(refusal) => put_three(
            answer,
            0,
            words,
            refusal.rule.number() as usize,
            refusal.place,
        ),
        None => put_three(answer, 0, words, 0, 0),
    }
}

// Writes an entry of twelve bytes for each word, kind, place and length, as many as there is room for, and into the answer how many words there are,
// the refusal and its place. 1, or 0 where the answer is too short, and then nothing is touched.
pub fn rapid_list(text: &[u8], out: &mut [u8], answer: &mut [u8]) -> u32
    ensures { Exported text.now out.old answer.old result out.new answer.new }
{
    if answer.len() < THREE {
        return 0;
    }
    put_summary(answer, list(text, out));
    1
}
