// The call of one run, for C: a static library of its own, since a crate is a library or a static library, and not both.
#![tactic(auto)]

ghost use Rattle.paper.specs.Undoing.{plainly};
ghost use Rattle.call_pendant.specs.Calls.{lent, Calls, until, FlaggedCalls};

// What call_pendant says of it.
#[unsafe(no_mangle)]
pub extern "C" fn rapid_run<'a>(
    text: &'a [u8],
    steps: u32,
    depth: u32,
    inputs: &'a [u8],
    out: &mut [u8],
    code: &mut [u8],
    values: &mut [u8],
    fields: &mut [u8],
) -> u32
    ensures { Calls (lent plainly text.now steps depth inputs.now out.old code.old values.old fields.old) result out.new code.new values.new fields.new }
{
    call_pendant::rapid_run(text, steps, depth, inputs, out, code, values, fields)
}

// What call_pendant says of it.
#[unsafe(no_mangle)]
pub extern "C" fn rapid_run_until<'a>(
    text: &'a [u8],
    flags: u32,
    steps: u32,
    depth: u32,
    at: u32,
    undo: u32,
    inputs: &'a [u8],
    out: &mut [u8],
    code: &mut [u8],
    values: &mut [u8],
    fields: &mut [u8],
) -> u32
    ensures { FlaggedCalls flags (lent (until at undo) text.now steps depth inputs.now out.old code.old values.old fields.old) result out.new code.new values.new fields.new }
{
    call_pendant::rapid_run_until(
        text, flags, steps, depth, at, undo, inputs, out, code, values, fields,
    )
}
