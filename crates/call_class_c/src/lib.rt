// A whole class in one call, for C: a static library of its own, since a crate is a library or a static library, and not both.
#![tactic(auto)]

ghost use Rattle.call_class.specs.Classes.{lent, Classes};

// What call_class says of it.
#[unsafe(no_mangle)]
pub extern "C" fn rapid_class<'a>(
    texts: &'a [u8],
    lengths: &[u8],
    steps: u32,
    depth: u32,
    inputs: &'a [u8],
    out: &mut [u8],
    code: &mut [u8],
    values: &mut [u8],
    records: &mut [u8],
    kept: &mut [u8],
) -> u32
    ensures { Classes (lent texts.now lengths.now steps depth inputs.now out.old code.old values.old records.old kept.old) result out.new code.new values.new records.new kept.new }
{
    call_class::rapid_class(
        texts, lengths, steps, depth, inputs, out, code, values, records, kept,
    )
}
