// Another simulator's listing marked: the whole call, numbers and byte slices only, and 1 or 0 back, for the C interface.
#![tactic(auto)]

ghost use Rattle.std.specs.Prelude.{◌<◌, ◌≤◌, length};
ghost use Rattle.paper.specs.Answer.{depth_limit};
ghost use Rattle.marks.specs.Marks.{mark_size};
ghost use Rattle.call_records.specs.Leaves.{Rooms};
ghost use Rattle.call_judging.specs.Carries.{Accepts, Starts};
ghost use Rattle.call_marking.specs.Marks.{mark_lent, Marks};
ghost use Rattle.call_marking.specs.Carries.{EndsBeside, Answers, TellsMark};

use call_records::{bad_depth, refuse, refuse_depth, settle};
use layout::limits;
use layout::rules::Rule;
use run_marking::Marked;

// bytes of the answer
const ANSWER_BYTES: usize = 8;

// Runs the module that the words of the stores hold, beside the listing. What lies past them is as it was.
// A run takes all that it is lent at one lifetime, and so does this; its callers have one for what is only read.
fn mark_words<'a>(
    text: &'a [u8],
    steps: u32,
    depth: u32,
    inputs: &'a [u8],
    out: &'a mut [u8],
    code: &'a [u8],
    values: &'a mut [u8],
    listing: &'a [u8],
    main: usize,
) -> Marked
    requires { Starts text.now code.now values.old main depth }
    ensures { EndsBeside text.now code.now values.old values.new inputs.now out.old out.new listing.now main steps depth result }
{
    run_marking::mark(
        text,
        &code[..limits::STORE_BYTES],
        &mut values[..limits::STORE_BYTES],
        inputs,
        out,
        main,
        steps,
        depth,
        listing,
    )
}

// Writes the two numbers of the answer.
fn put_mark(answer: &mut [u8], same: u32, index: u32)
    requires { mark_size ≤ length answer.old }
    ensures { Answers same index answer.old answer.new }
{
    store_cells::put(answer, 0, same);
    store_cells::put(answer, 1, index);
}

// Carries out the accepted module that the stores hold, writes the record and the answer, and clears the stores but for the module's words.
fn carry_out<'a>(
    text: &'a [u8],
    steps: u32,
    depth: u32,
    inputs: &'a [u8],
    out: &mut [u8],
    code: &mut [u8],
    values: &mut [u8],
    listing: &'a [u8],
    fields: &mut [u8],
    answer: &mut [u8],
    words: usize,
    main: usize,
)
    requires { (Accepts text.now code.old values.old fields.old words main depth) × (mark_size ≤ length answer.old) }
    ensures { TellsMark text.now steps depth inputs.now listing.now out.old code.old values.old fields.old answer.old out.new code.new values.new fields.new answer.new }
{
    let r = mark_words(text, steps, depth, inputs, out, code, values, listing, main);
    settle(
        code,
        values,
        fields,
        r.ending.number(),
        r.place,
        r.made,
        words,
    );
    put_mark(answer, u32::from(r.same), r.index);
}

// Checks the module text, and refuses it or carries it out.
fn judge<'a>(
    text: &'a [u8],
    steps: u32,
    depth: u32,
    inputs: &'a [u8],
    out: &mut [u8],
    code: &mut [u8],
    values: &mut [u8],
    listing: &'a [u8],
    fields: &mut [u8],
    answer: &mut [u8],
)
    requires { (Rooms code.old values.old fields.old) × (0 < depth) × (depth ≤ depth_limit) × (mark_size ≤ length answer.old) }
    ensures { TellsMark text.now steps depth inputs.now listing.now out.old code.old values.old fields.old answer.old out.new code.new values.new fields.new answer.new }
{
    match check_whole::check(text, code, values) {
        Err(refusal) => refuse(fields, refusal.rule.number(), refusal.place),
        Ok(module) => carry_out(
            text,
            steps,
            depth,
            inputs,
            out,
            code,
            values,
            listing,
            fields,
            answer,
            module.count,
            module.main,
        ),
    }
}

// The call: what `rapid_run` leaves, and what is told of the listing. 1, or 0 where the record or the answer is too short, and then nothing is touched.
pub fn rapid_mark<'a>(
    text: &'a [u8],
    steps: u32,
    depth: u32,
    inputs: &'a [u8],
    out: &mut [u8],
    code: &mut [u8],
    values: &mut [u8],
    listing: &'a [u8],
    fields: &mut [u8],
    answer: &mut [u8],
) -> u32
    ensures { Marks (mark_lent text.now steps depth inputs.now out.old code.old values.old listing.now fields.old answer.old) result out.new code.new values.new fields.new answer.new }
{
    if fields.len() < limits::RECORD_BYTES || answer.len() < ANSWER_BYTES {
        return 0;
    }
    if code.len() < limits::STORE_BYTES || values.len() < limits::STORE_BYTES {
        refuse(fields, Rule::SmallStore.number(), 0);
        return 1;
    }
    if bad_depth(depth) {
        refuse_depth(code, values, fields);
        return 1;
    }
    judge(
        text, steps, depth, inputs, out, code, values, listing, fields, answer,
    );
    1
}
