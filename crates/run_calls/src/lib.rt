// Calls.
// Why steps take and answer what they do stands in run_machine/src/lib.rt.
#![tactic(auto)]

ghost use Rattle.std.specs.Prelude.{◌≡◌, true, ◌+◌, ◌*◌, ◌<◌, ◌≤◌, eqb, length, pos};
ghost use Rattle.std.specs.Int.{w32};
ghost use Rattle.std.proofs.Common.{SFits};
ghost use Rattle.store_cells.specs.Cells.{cells_of};
ghost use Rattle.code.specs.Cells.{op_at};
ghost use Rattle.code.specs.Steps.{a_next_argument, a_procedure_call, a_call_target};
ghost use Rattle.layout.specs.Answers.{answers};
ghost use Rattle.run_machine.specs.Machine.{store_bytes, Here, Calls};
ghost use Rattle.run_targets.specs.Targets.{WordAt, ArrayAt};
ghost use Rattle.run_calls.specs.Calling.{Let, Passes, Passed, MayEnter, Entered, goes_on_at, MayCall, CallsFor, Deepest};

use layout::cells::{AFTER, FAILED, RESULT, ROUTINE, WAITS, WINDOW};
use layout::{answers, limits, ops, parts};
use run_starting::start_words;
use run_targets::element;
use store_evaluation::worth;
use store_reading::{head, link, place, put, value};

// ---- arguments

// Two numbers in one, since they are answered where an error may be: a Result of both comes back through memory (layout/src/answers.rt).
// It goes through 32 bits, by which the compiler sees that it is no error.
fn packed(low: usize, high: usize) -> i64
    requires { (low < answers) × (high < answers) }
    ensures { result ≡ pos (low + answers * high) }
{
    (low + answers::ANSWERS * high) as u32 as i64
}

// A comma stands at a word, which may lie past the store.
fn is_comma(code: &[u8], b: usize) -> bool
    requires { length code.now ≡ store_bytes }
    ensures { result ≡ eqb (op_at (cells_of code.now) b) a_next_argument }
{
    if b < limits::WORDS {
        return head(code, b) % parts::VALUE == ops::NEXT_ARGUMENT;
    }
    false
}

fn pass(values: &mut [u8], room: bool, n: usize, v: i64)
    requires { (room ≡ true → n * 4 + 4 ≤ length values.old) × SFits w32 v }
    ensures { Let values.old values.new room n v }
{
    if room {
        put(values, n, v);
    }
}

// The arguments from `first` on, the first of which ends at `end`, into the next window where there is room: the word that closes them and, above it, the
// cell behind them; or an error. A walk along links, no count.
fn arguments<'a>(
    code: &'a [u8],
    values: &'a mut [u8],
    base: usize,
    room: bool,
    first: usize,
    end: usize,
) -> i64
    requires { Passes code.now values.old base first end room }
    ensures { Passed code.now values.old values.new base first end room result }
{
    let mut n = base + WINDOW;
    if first == end {
        return packed(end, n);
    }
    let mut a = first;
    let mut b = end;
    loop {
        let v = worth(&*code, &*values, base, a, b);
        if answers::FIRST_ERROR <= v {
            return v;
        }
        pass(values, room, n, v);
        n += 1;
        if !is_comma(code, b) {
            return packed(b, n);
        }
        a = b + 1;
        b = link(code, b);
    }
}

// ---- calls

// A call of the routine that the word `callee` names, of which the arguments stand in the next window up to the cell n.
fn enter<'a>(
    code: &'a [u8],
    values: &'a mut [u8],
    base: usize,
    i: usize,
    callee: usize,
    res: usize,
    after: usize,
    n: usize,
) -> i64
    requires { MayEnter code.now values.old base i callee res after n }
    ensures { Entered code.now values.old base i callee res after n values.new result }
{
    store_cells::put(values, base + WAITS, i as u32);
    store_cells::put(values, base + AFTER, after as u32);
    let h = value(code, callee);
    start_words(&*code, values, link(code, h), n);
    store_cells::put(values, base + WINDOW + ROUTINE, h as u32);
    store_cells::put(values, base + WINDOW + FAILED, 0);
    store_cells::put(values, base + WINDOW + RESULT, res as u32);
    (answers::ENTRIES + place(code, h)) as i64
}

// The word whose link is where the caller goes on: the call's own where a result is wanted, else the one that closes the arguments.
// `res` is what the cell of the result holds: 0 where none is wanted.
fn goes_on(i: usize, closes: usize, res: usize) -> usize
    ensures { result ≡ goes_on_at i closes res }
{
    if res == 0 {
        return closes;
    }
    i
}

// A call of the routine that the word `callee` names, with the arguments from `first` on. All calls come here, so that one frame holds the work of each.
fn call<'a>(
    code: &'a [u8],
    values: &'a mut [u8],
    base: usize,
    last: usize,
    i: usize,
    callee: usize,
    first: usize,
    res: usize,
) -> i64
    requires { MayCall code.now values.old base i last callee first res }
    ensures { Calls code.now values.old values.new base last i result }
{
    let room = base < last;
    let r = arguments(&*code, values, base, room, first, link(code, callee));
    if answers::FIRST_ERROR <= r {
        return r;
    }
    if room {
        let k = r as usize;
        let at = goes_on(i, k % answers::ANSWERS, res);
        return enter(
            &*code,
            values,
            base,
            i,
            callee,
            res,
            link(code, at),
            k / answers::ANSWERS,
        );
    }
    (answers::LACKS + callee) as i64
}

// A procedure call; `last` is the window of the last call that the depth lent admits.
pub fn call_of<'a>(code: &'a [u8], values: &'a mut [u8], base: usize, last: usize, i: usize) -> i64
    requires { Here code.now values.old base i × Deepest last × (op_at (cells_of code.now) i ≡ a_procedure_call) }
    ensures { Calls code.now values.old values.new base last i result }
{
    call(&*code, values, base, last, i, i, i + 1, 0)
}

// A call for a result that goes to a cell. Its target is followed by the word `next`, and that by the callee.
fn call_to<'a>(
    code: &'a [u8],
    values: &'a mut [u8],
    base: usize,
    last: usize,
    i: usize,
    next: usize,
    cell: usize,
) -> i64
    requires { CallsFor code.now values.old base i last next cell }
    ensures { Calls code.now values.old values.new base last i result }
{
    call(&*code, values, base, last, i, next + 1, next + 3, cell + 1)
}

// A call for a result that goes to the word at a cell.
pub fn call_for<'a>(
    code: &'a [u8],
    values: &'a mut [u8],
    base: usize,
    last: usize,
    i: usize,
    cell: usize,
) -> i64
    requires { Here code.now values.old base i × Deepest last × WordAt (cells_of code.now) base a_call_target i cell }
    ensures { Calls code.now values.old values.new base last i result }
{
    call_to(&*code, values, base, last, i, i + 1, cell)
}

// A call for a result that goes to an element of the array whose first cell is given.
pub fn call_for_element<'a>(
    code: &'a [u8],
    values: &'a mut [u8],
    base: usize,
    last: usize,
    i: usize,
    first: usize,
    size: usize,
) -> i64
    requires { Here code.now values.old base i × Deepest last × ArrayAt (cells_of code.now) base a_call_target i first size }
    ensures { Calls code.now values.old values.new base last i result }
{
    let end = link(code, i + 1);
    let k = element(&*code, &*values, base, first, size, i, end);
    if k < answers::FIRST_ERROR {
        return call_to(&*code, values, base, last, i, end + 1, k as usize);
    }
    k
}
