// Where a word of a text starts, by its index. A module that is refused is read again up to the word that it is refused at, so that the check need not keep
// every word's offset.
#![tactic(auto)]

ghost use Rattle.text_offsets.specs.Offsets.{Offset};

use text_words::Cursor;

pub fn offset_of(text: &[u8], i: usize) -> usize
    ensures { Offset text.now i result }
{
    let mut c = Cursor::start();
    let mut before = i;
    loop {
        let Ok(Some((word, next))) = c.step(text) else {
            return text.len();
        };
        if before == 0 {
            return word.place;
        }
        before -= 1;
        c = next;
    }
}
