// The text of a call judged: checked, and refused or carried out. What is lent stands one by one here and in the crates above, as the C interface lends it: each promise speaks of each.
#![tactic(auto)]

ghost use Rattle.std.specs.Prelude.{◌<◌, ◌≤◌};
ghost use Rattle.paper.specs.Answer.{depth_limit, verdict, carried_out};
ghost use Rattle.call_records.specs.Leaves.{Rooms, Tells};
ghost use Rattle.call_judging.specs.Carries.{asked_by, put, Accepts, Starts, Ends};

use call_records::{refuse, settle};
use layout::limits;
use run_whole::{Abort, Ended};

// Runs the module that the words of the stores hold. What lies past them is as it was.
// A run takes all that it is lent at one lifetime, and so does this; its callers have one for the text and the inputs.
fn run_words<'a>(
    text: &'a [u8],
    steps: u32,
    depth: u32,
    inputs: &'a [u8],
    out: &'a mut [u8],
    code: &'a [u8],
    values: &'a mut [u8],
    main: usize,
    abort: Abort,
) -> Ended
    requires { Starts text.now code.now values.old main depth }
    ensures { Ends text.now code.now values.old values.new inputs.now out.old out.new main steps depth abort result }
{
    run_whole::run(
        text,
        &code[..limits::STORE_BYTES],
        &mut values[..limits::STORE_BYTES],
        inputs,
        out,
        main,
        steps,
        depth,
        abort,
    )
}

// Carries out the accepted module that the stores hold, writes the record, and clears the stores but for the module's words.
fn carry_out<'a>(
    text: &'a [u8],
    steps: u32,
    depth: u32,
    inputs: &'a [u8],
    out: &mut [u8],
    code: &mut [u8],
    values: &mut [u8],
    fields: &mut [u8],
    words: usize,
    main: usize,
    abort: Abort,
)
    requires { Accepts text.now code.old values.old fields.old words main depth }
    ensures { Tells (carried_out (put (asked_by abort) text.now steps depth inputs.now out.old) (verdict text.now)) out.old code.old values.old fields.old out.new code.new values.new fields.new }
{
    let e = run_words(text, steps, depth, inputs, out, code, values, main, abort);
    settle(
        code,
        values,
        fields,
        e.ending.number(),
        e.place,
        e.made,
        words,
    );
}

// Checks the module text, and refuses it or carries it out.
pub fn judge<'a>(
    text: &'a [u8],
    steps: u32,
    depth: u32,
    inputs: &'a [u8],
    out: &mut [u8],
    code: &mut [u8],
    values: &mut [u8],
    fields: &mut [u8],
    abort: Abort,
)
    requires { (Rooms code.old values.old fields.old) × (0 < depth) × (depth ≤ depth_limit) }
    ensures { Tells (carried_out (put (asked_by abort) text.now steps depth inputs.now out.old) (verdict text.now)) out.old code.old values.old fields.old out.new code.new values.new fields.new }
{
    match check_whole::check(text, code, values) {
        Err(refusal) => refuse(fields, refusal.rule.number(), refusal.place),
        Ok(module) => carry_out(
            text,
            steps,
            depth,
            inputs,
            out,
            code,
            values,
            fields,
            module.count,
            module.main,
            abort,
        ),
    }
}
