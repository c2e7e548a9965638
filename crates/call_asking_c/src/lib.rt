// The length of the word at a place, for C: a static library of its own, since a crate is a library or a static library, and not both.
#![tactic(auto)]

ghost use Rattle.call_asking.specs.Asking.{Told};

// What call_asking says of it.
#[unsafe(no_mangle)]
pub extern "C" fn rapid_ask(text: &[u8], place: usize) -> usize
    ensures { Told text.now place result }
{
    call_asking::rapid_ask(text, place)
}
