// The words of a text, read one after another from the first byte, and the word that starts at a place.
#![tactic(auto)]

ghost use Rattle.text_words.specs.Answers.{Refuses, RefusedAt, Here, Started, Stepped, FoundAt, PartAt};

use layout::limits;
use layout::rules::Rule;
use text_scanner::{Scan, scan_word, skip_gap};

#[derive(Clone, Copy)]
pub struct Word {
    pub sort: u32,
    pub place: usize,
    pub length: usize,
    // of a number; else 0
    pub value: u64,
}

// How far a reading has come: its place, and how many words it has given. No Iterator: whoever reads has one loop with the step in it, which becomes one piece of code (D63),
// and a refusal ends it.
#[derive(Drop)]
pub struct Cursor {
    pub place: usize,
    pub words: u32,
}

// The rule that a text breaks, and the byte where it does.
#[derive(Clone, Copy)]
pub struct Refusal {
    pub rule: Rule,
    pub place: usize,
}

// A word, and how far the reading has come with it; or the text's end.
pub type Step = Result<Option<(Word, Cursor)>, Refusal>;

// The refusal at a word's start, or so many bytes after it. In a full text one that lies after the word's start is the full text's.
fn refused_at(scan: Scan, place: usize, full: bool) -> Step
    requires { Refuses place scan }
    ensures { RefusedAt place full scan result }
{
    let Err(flaw) = scan else {
        return Ok(None);
    };
    if full {
        if flaw.after == 0 {
            return Err(Refusal {
                rule: flaw.rule,
                place,
            });
        }
        return Err(Refusal {
            rule: Rule::ManyWords,
            place,
        });
    }
    Err(Refusal {
        rule: flaw.rule,
        place: place + flaw.after,
    })
}

// The word that starts at a place, or the end. So many words came before. The paper asks that who scans takes word and refusal apart with let .. else.
fn word_here(text: &[u8], place: usize, words: u32) -> Step
    ensures { Here text.now place words result }
{
    if text.len() <= place {
        return Ok(None);
    }
    let full = limits::WORDS_READ <= words;
    let scan = scan_word(&text[place..]);
    let Ok(token) = scan else {
        return refused_at(scan, place, full);
    };
    if full {
        return Err(Refusal {
            rule: Rule::ManyWords,
            place,
        });
    }
    let word = Word {
        sort: token.sort,
        place,
        length: token.length,
        value: token.value,
    };
    Ok(Some((
        word,
        Cursor {
            place: place + token.length,
            words: words + 1,
        },
    )))
}

impl Cursor {
    pub fn start() -> Cursor
        ensures { Started result }
    {
        Cursor { place: 0, words: 0 }
    }

    // The next word of the reading.
    pub fn step(self, text: &[u8]) -> Step
        ensures { Stepped text.now self result }
    {
        if limits::TEXT < text.len() {
            return Err(Refusal {
                rule: Rule::LongText,
                place: limits::TEXT,
            });
        }
        match skip_gap(text, self.place) {
            Ok(place) => word_here(text, place, self.words),
            Err(bad) => Err(Refusal {
                rule: Rule::BadByte,
                place: bad.place,
            }),
        }
    }
}

// The length of the word that starts at a place, in one reading from the first byte.
fn word_at(text: &[u8], place: usize) -> Option<usize>
    ensures { FoundAt text.now place result }
{
    let mut c = Cursor::start();
    loop {
        let Ok(Some((word, next))) = c.step(text) else {
            return None;
        };
        if word.place == place {
            return Some(word.length);
        }
        if place < word.place {
            return None;
        }
        c = next;
    }
}

// The part of the text that the word at a place covers. Where no word starts there, an empty part, and `found` says so:
// the paper asks for a part and a flag.
pub fn part_at<'a, 'b>(text: &'a [u8], place: usize, found: &'b mut bool) -> &'a [u8]
    ensures { PartAt text.entry place result found.new }
{
    let Some(length) = word_at(text, place) else {
        *found = false;
        return &text[..0];
    };
    *found = true;
    &text[place..place + length]
}
