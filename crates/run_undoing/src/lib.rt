// UNDO lists: whose is next as the calls of an aborted run are dropped.
// Why steps take and answer what they do stands in run_machine/src/lib.rt.
#![tactic(auto)]

ghost use Rattle.std.specs.Prelude.{◌≡◌};
ghost use Rattle.run_errors.specs.Taken.{listed};
ghost use Rattle.run_errors.specs.Errors.{HasRoutine};
ghost use Rattle.run_undoing.specs.Dropping.{undo_at, Stands, Dropped, Quits, Notes, Noted, Left};

use layout::answers;
use layout::cells::{ERRNO, FIRST_WINDOW, ROUTINE, WINDOW};
use run_errors::Machine;
use store_reading::place;

// Where the UNDO list begins of the call with its window at b.
// run_errors::handler reads the other half of that word: one function that is told which half would be no plainer.
fn undo_list<'a>(code: &'a [u8], values: &'a [u8], b: usize) -> Option<usize>
    requires { HasRoutine code.now values.now b }
    ensures { result ≡ listed (undo_at code.now values.now b) }
{
    let u = place(code, store_cells::get(values, b + ROUTINE) as usize + 1);
    if u == 0 {
        return None;
    }
    Some(u)
}

// Calls are dropped from the one with its window at `base` on, innermost first: where the next UNDO list begins, and the window of its call; none where no call has one.
// A walk from window to window, no count.
pub fn drop_to<'a>(code: &'a [u8], values: &'a [u8], base: usize) -> Option<Machine>
    requires { Stands code.now values.now base }
    ensures { Dropped code.now values.now base result }
{
    let mut b = base;
    loop {
        if let Some(next) = undo_list(code, values, b) {
            return Some(Machine { next, base: b });
        }
        if b == FIRST_WINDOW {
            return None;
        }
        b -= WINDOW;
    }
}

// ERRNO, where a step has answered with an error.
fn note(values: &mut [u8], r: i64)
    requires { Notes values.old r }
    ensures { Noted values.old values.new r }
{
    if answers::FIRST_ERROR <= r {
        let e = r as usize - answers::ERRORS;
        store_cells::put(values, ERRNO, e as u32);
    }
}

// The UNDO list of the call with its window at `base` is left, by a step that answered r: its callers are dropped.
pub fn leave<'a>(code: &'a [u8], values: &'a mut [u8], base: usize, r: i64) -> Option<Machine>
    requires { Stands code.now values.old base × Quits r }
    ensures { Left code.now values.old values.new base r result }
{
    note(values, r);
    if base == FIRST_WINDOW {
        return None;
    }
    drop_to(&*code, &*values, base - WINDOW)
}
