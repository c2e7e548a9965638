// The whole call, as the pendant makes it: numbers and byte slices only, and 1 or 0 back, for the C interface.
#![tactic(auto)]

ghost use Rattle.paper.specs.Undoing.{plainly};
ghost use Rattle.call_judging.specs.Carries.{asked_by};
ghost use Rattle.call_pendant.specs.Calls.{lent, Calls, until, FlaggedCalls};

use call_judging::judge;
use call_records::{bad_depth, refuse, refuse_depth};
use layout::limits;
use layout::rules::Rule;
use run_whole::Abort;

// Checks the module text and carries it out. 1, or 0 where the record is too short, and then nothing is touched.
fn call<'a>(
    text: &'a [u8],
    steps: u32,
    depth: u32,
    inputs: &'a [u8],
    out: &mut [u8],
    code: &mut [u8],
    values: &mut [u8],
    fields: &mut [u8],
    abort: Abort,
) -> u32
    ensures { Calls (lent (asked_by abort) text.now steps depth inputs.now out.old code.old values.old fields.old) result out.new code.new values.new fields.new }
{
    if fields.len() < limits::RECORD_BYTES {
        return 0;
    }
    if code.len() < limits::STORE_BYTES || values.len() < limits::STORE_BYTES {
        refuse(fields, Rule::SmallStore.number(), 0);
        return 1;
    }
    if bad_depth(depth) {
        refuse_depth(code, values, fields);
        return 1;
    }
    judge(text, steps, depth, inputs, out, code, values, fields, abort);
    1
}

// The call.
pub fn rapid_run<'a>(
    text: &'a [u8],
    steps: u32,
    depth: u32,
    inputs: &'a [u8],
    out: &mut [u8],
    code: &mut [u8],
    values: &mut [u8],
    fields: &mut [u8],
) -> u32
    ensures { Calls (lent plainly text.now steps depth inputs.now out.old code.old values.old fields.old) result out.new code.new values.new fields.new }
{
    call(
        text,
        steps,
        depth,
        inputs,
        out,
        code,
        values,
        fields,
        Abort::Never,
    )
}

// The call of a run that is aborted at a step, with so many steps for its UNDO lists. Of the flags none has a meaning yet: with one that is not known it answers 0, and nothing is touched.
pub fn rapid_run_until<'a>(
    text: &'a [u8],
    flags: u32,
    steps: u32,
    depth: u32,
    at: u32,
    undo: u32,
    inputs: &'a [u8],
    out: &mut [u8],
    code: &mut [u8],
    values: &mut [u8],
    fields: &mut [u8],
) -> u32
    ensures { FlaggedCalls flags (lent (until at undo) text.now steps depth inputs.now out.old code.old values.old fields.old) result out.new code.new values.new fields.new }
{
    if flags != 0 {
        return 0;
    }
    call(
        text,
        steps,
        depth,
        inputs,
        out,
        code,
        values,
        fields,
        Abort::At(at, undo),
    )
}
