// Errors: which call takes one.
// Why steps take and answer what they do stands in run_machine/src/lib.rt.
#![tactic(auto)]

ghost use Rattle.std.specs.Prelude.{◌≡◌};
ghost use Rattle.run_machine.specs.Machine.{Here};
ghost use Rattle.run_errors.specs.Taken.{listed};
ghost use Rattle.run_errors.specs.Errors.{HasRoutine, handler_at, Nearest, Unwound, Raises, Arisen};

use layout::answers;
use layout::cells::{ERRNO, FAILED, FIRST_WINDOW, ROUTINE, WAITS, WINDOW};
use store_reading::link;

// Where a run stands: the next step of its newest call, and that call's window.
#[derive(Clone, Copy, PartialEq, Eq)]
pub struct Machine {
    pub next: usize,
    pub base: usize,
}

// Where the ERROR list begins of the call with its window at b.
fn handler<'a>(code: &'a [u8], values: &'a [u8], b: usize) -> Option<usize>
    requires { HasRoutine code.now values.now b }
    ensures { result ≡ listed (handler_at code.now values.now b) }
{
    let h = link(code, store_cells::get(values, b + ROUTINE) as usize + 1);
    if h == 0 {
        return None;
    }
    Some(h)
}

// The nearest call up the chain with an ERROR list, or main: its window, and the step that failed in it, which is i in the call with its window at `base`.
// A walk from window to window, no count.
fn nearest<'a>(code: &'a [u8], values: &'a [u8], base: usize, i: usize) -> Machine
    requires { Here code.now values.now base i }
    ensures { Nearest code.now values.now base i result }
{
    let mut b = base;
    let mut s = i;
    while handler(code, values, b).is_none() {
        if b == FIRST_WINDOW {
            return Machine { next: s, base: b };
        }
        b -= WINDOW;
        s = store_cells::get(values, b + WAITS) as usize;
    }
    Machine { next: s, base: b }
}

// An error that step i of the call with its window at `base` has: the nearest call with an ERROR list takes it, those below are dropped.
fn unwind<'a>(code: &'a [u8], values: &'a mut [u8], base: usize, i: usize) -> Option<Machine>
    requires { Here code.now values.old base i }
    ensures { Unwound code.now values.old values.new base i result }
{
    let n = nearest(&*code, &*values, base, i);
    let next = handler(&*code, &*values, n.base)?;
    if store_cells::get(values, n.base + FAILED) != 0 {
        return None;
    }
    store_cells::put(values, n.base + FAILED, n.next as u32);
    Some(Machine { next, base: n.base })
}

// The step that takes an error, by a step's answer, and the window of its call; or none, and the run dies of it. Plain RAISE hands the last one to the caller.
pub fn arise<'a>(
    code: &'a [u8],
    values: &'a mut [u8],
    base: usize,
    i: usize,
    r: i64,
) -> Option<Machine>
    requires { Here code.now values.old base i × Raises r }
    ensures { Arisen code.now values.old values.new base i r result }
{
    if answers::FIRST_ERROR <= r {
        let e = r as usize - answers::ERRORS;
        store_cells::put(values, ERRNO, e as u32);
        return unwind(code, values, base, i);
    }
    if base == FIRST_WINDOW {
        return None;
    }
    let b = base - WINDOW;
    let s = store_cells::get(values, b + WAITS) as usize;
    unwind(code, values, b, s)
}
