// The listing of a text's words, for C: a static library of its own, since a crate is a library or a static library, and not both.
#![tactic(auto)]

ghost use Rattle.call_listing.specs.Listing.{Exported};

// What call_listing says of it.
#[unsafe(no_mangle)]
pub extern "C" fn rapid_list(text: &[u8], out: &mut [u8], answer: &mut [u8]) -> u32
    ensures { Exported text.now out.old answer.old result out.new answer.new }
{
    call_listing::rapid_list(text, out, answer)
}
