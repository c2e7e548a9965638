// Returns.
// Why steps take and answer what they do stands in run_machine/src/lib.rt.
#![tactic(auto)]

ghost use Rattle.std.specs.Prelude.{◌*◌, ◌≤◌, length};
ghost use Rattle.std.specs.Int.{w32};
ghost use Rattle.std.proofs.Common.{SFits};
ghost use Rattle.store_cells.specs.Cells.{cells_of};
ghost use Rattle.code.specs.Steps.{a_return_of};
ghost use Rattle.run_machine.specs.Machine.{Here, Performs, Says};
ghost use Rattle.run_returns.specs.Returning.{Gave, Returns};

use layout::answers;
use layout::cells::{AFTER, FIRST_WINDOW, RESULT, WINDOW};
use store_evaluation::worth;
use store_reading::put;

// A result into the cell that is 1 below; 0 is nowhere, as the window's cell holds it.
fn give(values: &mut [u8], cell: usize, v: i64)
    requires { (cell * 4 ≤ length values.old) × SFits w32 v }
    ensures { Gave values.old values.new cell v }
{
    if cell != 0 {
        put(values, cell - 1, v);
    }
}

// RETURN with a value, which stands from the next word up to t.
pub fn give_back<'a>(code: &'a [u8], values: &'a mut [u8], base: usize, i: usize, t: usize) -> i64
    requires { Here code.now values.old base i × Says code.now i a_return_of t }
    ensures { Performs code.now values.old values.new base i result }
{
    let v = worth(&*code, &*values, base, i + 1, t);
    if answers::FIRST_ERROR <= v {
        return v;
    }
    if base == FIRST_WINDOW {
        return answers::MAIN_RETURNED;
    }
    let next = store_cells::get(values, base - WINDOW + AFTER) as usize;
    let cell = store_cells::get(values, base + RESULT) as usize;
    give(values, cell, v);
    (answers::LEAVINGS + next) as i64
}

// A return with nothing: the caller goes on.
pub fn back<'a>(code: &'a [u8], values: &'a [u8], base: usize, i: usize) -> i64
    requires { Here code.now values.now base i × Returns (cells_of code.now) i }
    ensures { Performs code.now values.now values.now base i result }
{
    if base == FIRST_WINDOW {
        return answers::MAIN_RETURNED;
    }
    (answers::LEAVINGS + store_cells::get(values, base - WINDOW + AFTER) as usize) as i64
}
