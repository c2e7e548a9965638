// A run: the machine goes from step to step over the code store. One that is aborted goes on with its UNDO lists.
// Why its functions take the stores one by one stands in run_machine/src/lib.rt.
#![tactic(auto)]

ghost use Rattle.std.specs.Prelude.{◌≡◌, ◌-◌, ◌<◌, ◌≤◌};
ghost use Rattle.code.specs.Cells.{window_of};
ghost use Rattle.run_machine.specs.Machine.{depth_limit, Steps};
ghost use Rattle.run_whole.specs.Runs.{allowed_by, MayBegin, Begun, Begins, Ran};
ghost use Rattle.run_whole.specs.Walks.{spent_by, left_with, Walks, SetsOut, Strikes, Undoes};

use layout::cells::{FIRST_WINDOW, MAIN_ROUTINE, WINDOW};
use layout::endings::Ending;
use run_advancing::{Turn, advance};
use run_errors::Machine;
use run_starting::start_words;
use run_undoing::drop_to;
use store_reading::{link, place};

// Whether a run is aborted: the step K that it is aborted at, and how many steps its UNDO lists may take.
#[derive(Clone, Copy, PartialEq, Eq)]
pub enum Abort {
    Never,
    At(u32, u32),
}

// How a run ended: the ending, the offset of its place, and how many steps were made.
#[derive(Clone, Copy, PartialEq, Eq)]
pub struct Ended {
    pub ending: Ending,
    pub place: usize,
    pub made: u64,
}

// Where a walk from step to step has ended: the ending, the offset of its place, the window of the newest call, and how many steps are left.
#[derive(Clone, Copy, PartialEq, Eq)]
pub struct Walked {
    pub ending: Ending,
    pub place: usize,
    pub base: usize,
    pub left: u32,
}

// main's window as a run begins: its routine begins at word h. Every loop over whole steps begins so, a run and one beside a listing.
pub fn begin<'a>(code: &'a [u8], values: &'a mut [u8], h: usize)
    requires { MayBegin code.now values.old h }
    ensures { Begun code.now values.old values.new h }
{
    store_cells::put(values, MAIN_ROUTINE, h as u32);
    start_words(&*code, values, link(code, h), FIRST_WINDOW);
}

// The ending that spent steps give: of a run, or of the UNDO lists of an aborted one.
fn spent(aborted: bool) -> Ending
    ensures { result ≡ spent_by aborted }
{
    if aborted {
        return Ending::UndoSpent;
    }
    Ending::StepsSpent
}

// How many steps are left with one more that counts, or does not.
fn behind(left: u32, counts: bool) -> u32
    requires { 0 < left }
    ensures { result ≡ left_with counts left }
{
    if counts {
        return left - 1;
    }
    left
}

// From step to step, until the run has ended or all are spent: of a run, or of the UNDO lists of an aborted one.
// Both share it: with one place where a step is made the compiler makes its code a part of this loop.
// The count falls behind the step: one that goes before it, as a `for`'s does, took some 1 % more instructions (D120).
fn walk<'a>(
    text: &'a [u8],
    code: &'a [u8],
    values: &'a mut [u8],
    inputs: &'a [u8],
    out: &'a mut [u8],
    last: usize,
    from: Machine,
    steps: u32,
    aborted: bool,
) -> Walked
    requires { Steps text.now code.now values.old out.old from.base last from.next }
    ensures { Walks text.now code.now values.old values.new inputs.now out.old out.new last from steps aborted result }
{
    let mut m = from;
    let mut left = steps;
    while 0 < left {
        match advance(text, &*code, values, inputs, out, last, m, aborted) {
            Turn::On(next) => {
                m = next;
                left -= 1;
            }
            Turn::Over(halt) => {
                return Walked {
                    ending: halt.ending,
                    place: halt.place,
                    base: m.base,
                    left: behind(left, halt.counts),
                };
            }
        }
    }
    Walked {
        ending: spent(aborted),
        place: place(code, m.next),
        base: m.base,
        left,
    }
}

// The window of the last call that the depth lent admits.
pub fn last_window(depth: u32) -> usize
    requires { (0 < depth) × (depth ≤ depth_limit) }
    ensures { result ≡ window_of (depth - 1) }
{
    FIRST_WINDOW + WINDOW * (depth as usize - 1)
}

// A walk from main's first step on.
fn set_out<'a>(
    text: &'a [u8],
    code: &'a [u8],
    values: &'a mut [u8],
    inputs: &'a [u8],
    out: &'a mut [u8],
    h: usize,
    steps: u32,
    depth: u32,
) -> Walked
    requires { Begins text.now code.now values.old h depth }
    ensures { SetsOut text.now code.now values.old values.new inputs.now out.old out.new h steps depth result }
{
    begin(&*code, values, h);
    walk(
        text,
        code,
        values,
        inputs,
        out,
        last_window(depth),
        Machine {
            next: place(code, h),
            base: FIRST_WINDOW,
        },
        steps,
        false,
    )
}

// The UNDO lists of a run that is aborted after so many steps, while the call with its window at `base` is the newest: for all of them there are `most` steps.
fn undo<'a>(
    text: &'a [u8],
    code: &'a [u8],
    values: &'a mut [u8],
    inputs: &'a [u8],
    out: &'a mut [u8],
    base: usize,
    last: usize,
    made: u32,
    most: u32,
) -> Ended
    requires { Strikes text.now code.now values.old out.old base last }
    ensures { Undoes text.now code.now values.old values.new inputs.now out.old out.new base last made most result }
{
    let Some(first) = drop_to(&*code, &*values, base) else {
        return Ended {
            ending: Ending::Aborted,
            place: 0,
            made: made as u64,
        };
    };
    let w = walk(text, code, values, inputs, out, last, first, most, true);
    Ended {
        ending: w.ending,
        place: w.place,
        made: made as u64 + (most - w.left) as u64,
    }
}

// How many steps there are before a run is aborted.
fn allowed(steps: u32, abort: Abort) -> u32
    ensures { result ≡ allowed_by steps abort }
{
    let Abort::At(at, _) = abort else {
        return steps;
    };
    if at <= steps {
        return at;
    }
    steps
}

// A run of the module whose main begins at word h.
pub fn run<'a>(
    text: &'a [u8],
    code: &'a [u8],
    values: &'a mut [u8],
    inputs: &'a [u8],
    out: &'a mut [u8],
    h: usize,
    steps: u32,
    depth: u32,
    abort: Abort,
) -> Ended
    requires { Begins text.now code.now values.old h depth }
    ensures { Ran text.now code.now values.old values.new inputs.now out.old out.new h steps depth abort result }
{
    let n = allowed(steps, abort);
    let w = set_out(text, code, values, inputs, out, h, n, depth);
    let made = n - w.left;
    let ended = Ended {
        ending: w.ending,
        place: w.place,
        made: made as u64,
    };
    let Abort::At(at, most) = abort else {
        return ended;
    };
    if steps < at {
        return ended;
    }
    let Ending::StepsSpent = w.ending else {
        return ended;
    };
    undo(
        text,
        code,
        values,
        inputs,
        out,
        w.base,
        last_window(depth),
        made,
        most,
    )
}
