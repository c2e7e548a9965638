// RETRY and TRYNEXT: how a run goes on after an error.
// Why steps take and answer what they do stands in run_machine/src/lib.rt.
#![tactic(auto)]

ghost use Rattle.std.specs.Prelude.{◌≡◌, ◌+◌, ◌*◌, ◌≤◌, length};
ghost use Rattle.store_cells.specs.Cells.{cells_of};
ghost use Rattle.code.specs.Cells.{op_at};
ghost use Rattle.code.specs.Steps.{a_retry, a_try_next};
ghost use Rattle.code.specs.Windows.{failed_cell};
ghost use Rattle.run_machine.specs.Machine.{Here, Performs};
ghost use Rattle.run_resuming.specs.Resuming.{Closes, Closing, StepAt, After, Forgot};

use layout::cells::FAILED;
use layout::{ops, parts};
use store_reading::{head, link};

// The word that closes the arguments from `first` on, the first of which ends at `end`. A walk along links, no count.
fn closing(code: &[u8], first: usize, end: usize) -> usize
    requires { Closes code.now first end }
    ensures { Closing code.now first end result }
{
    if first == end {
        return end;
    }
    let mut b = end;
    while head(code, b) % parts::VALUE == ops::NEXT_ARGUMENT {
        b = link(code, b);
    }
    b
}

// The step after a step's statement. A procedure call has it in the word that closes it, a later FOR test in its FOR; the end of a list is its own.
fn after(code: &[u8], i: usize) -> usize
    requires { StepAt code.now i }
    ensures { After code.now i result }
{
    let w = head(code, i);
    let op = w % parts::VALUE;
    match op {
        ops::PROCEDURE_CALL => link(code, closing(code, i + 1, link(code, i))),
        ops::FOR_TEST => link(code, (w / parts::LOOP_IN_HEAD) as usize),
        ops::END => i,
        ops::FUNCTION_END => i,
        ops::UNDO_END => i,
        _ => link(code, i),
    }
}

// The failed step of a call, if it has one: it is in its ERROR list no more.
fn forget(values: &mut [u8], base: usize) -> Option<usize>
    requires { (base + failed_cell) * 4 + 4 ≤ length values.old }
    ensures { Forgot values.old values.new base result }
{
    let f = store_cells::get(values, base + FAILED);
    store_cells::put(values, base + FAILED, 0);
    if f == 0 {
        return None;
    }
    Some(f as usize)
}

pub fn retry<'a>(code: &'a [u8], values: &'a mut [u8], base: usize, i: usize) -> i64
    requires { Here code.now values.old base i × (op_at (cells_of code.now) i ≡ a_retry) }
    ensures { Performs code.now values.old values.new base i result }
{
    match forget(values, base) {
        Some(f) => f as i64,
        None => i as i64,
    }
}

pub fn try_next<'a>(code: &'a [u8], values: &'a mut [u8], base: usize, i: usize) -> i64
    requires { Here code.now values.old base i × (op_at (cells_of code.now) i ≡ a_try_next) }
    ensures { Performs code.now values.old values.new base i result }
{
    match forget(values, base) {
        Some(f) => after(code, f) as i64,
        None => i as i64,
    }
}
