// The word at a place, for the pendant, whose screen program is written in C. It is a library of its own beside the listing: the reader is compiled into
// each loop that reads, which a compiler does only where a library has one such loop.
#![tactic(auto)]

ghost use Rattle.call_asking.specs.Asking.{Told};

use text_words::part_at;

// How many bytes the word that starts at a place covers, or 0 where none starts there.
pub fn rapid_ask(text: &[u8], place: usize) -> usize
    ensures { Told text.now place result }
{
    let mut found = false;
    let part = part_at(text, place, &mut found);
    if found { part.len() } else { 0 }
}
