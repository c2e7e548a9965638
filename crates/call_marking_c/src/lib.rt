// The call that marks another simulator's listing, for C: a static library of its own, since a crate is a library or a static library, and not both.
#![tactic(auto)]

ghost use Rattle.call_marking.specs.Marks.{mark_lent, Marks};

// What call_marking says of it.
#[unsafe(no_mangle)]
pub extern "C" fn rapid_mark<'a>(
    text: &'a [u8],
    steps: u32,
    depth: u32,
    inputs: &'a [u8],
    out: &mut [u8],
    code: &mut [u8],
    values: &mut [u8],
    listing: &'a [u8],
    fields: &mut [u8],
    answer: &mut [u8],
) -> u32
    ensures { Marks (mark_lent text.now steps depth inputs.now out.old code.old values.old listing.now fields.old answer.old) result out.new code.new values.new fields.new answer.new }
{
    call_marking::rapid_mark(
        text, steps, depth, inputs, out, code, values, listing, fields, answer,
    )
}
