// Where a target is, and what is stored there.
// Why steps take and answer what they do stands in run_machine/src/lib.rt.
#![tactic(auto)]

ghost use Rattle.store_cells.specs.Cells.{cells_of};
ghost use Rattle.code.specs.Steps.{a_target};
ghost use Rattle.store_evaluation.specs.Answers.{Stores};
ghost use Rattle.run_machine.specs.Machine.{Here, Performs};
ghost use Rattle.run_targets.specs.Targets.{Indexes, Found, Target, Spotted, WordAt, ArrayAt, Assigns, Assigned};

use layout::answers::FIRST_ERROR;
use layout::{ops, parts};
use store_evaluation::{OUT_OF_BOUND, worth};
use store_reading::{head, link, put};

// The cell of an element, or an error. Its array's first cell is given, and its size. store_evaluation::element tests an index in the same two lines, but has what the cell holds
// for its answer and a word of the store in place of the two numbers: a function of both would be longer than either.
pub fn element<'a>(
    code: &'a [u8],
    values: &'a [u8],
    base: usize,
    first: usize,
    size: usize,
    i: usize,
    end: usize,
) -> i64
    requires { Stores values.now base × Indexes code.now base first size i end }
    ensures { Found code.now values.now base first size i end result }
{
    let x = worth(&*code, &*values, base, i + 2, end);
    if x < FIRST_ERROR {
        if x < 1 {
            return OUT_OF_BOUND;
        }
        if (size as i64) < x {
            return OUT_OF_BOUND;
        }
        return (first + (x as usize - 1)) as i64;
    }
    x
}

// The cell of the target at word i, or an error.
pub fn target_cell<'a>(code: &'a [u8], values: &'a [u8], base: usize, i: usize) -> i64
    requires { Stores values.now base × Target code.now i }
    ensures { Spotted code.now values.now base i result }
{
    let w = head(code, i);
    let op = w % parts::VALUE;
    let v = (w / parts::VALUE) as usize;
    if op == ops::TARGET {
        return v as i64;
    }
    if op <= ops::TARGET_IN_CALL {
        return (base + v) as i64;
    }
    let first = (w / parts::VALUE % parts::SIZE) as usize;
    let size = (w / parts::VALUE / parts::SIZE) as usize;
    let end = link(code, i + 1);
    if op == ops::TARGET_ELEMENT {
        return element(&*code, &*values, base, first, size, i, end);
    }
    element(&*code, &*values, base, base + first, size, i, end)
}

// ---- assignments

// What stands behind the word `at`, which follows the target of the step at i, into a cell.
fn assign<'a>(
    code: &'a [u8],
    values: &'a mut [u8],
    base: usize,
    i: usize,
    at: usize,
    cell: usize,
) -> i64
    requires { Assigns code.now values.old base i at cell }
    ensures { Assigned code.now values.old base i at cell values.new result }
{
    let v = worth(&*code, &*values, base, at + 1, link(code, at));
    if v < FIRST_ERROR {
        put(values, cell, v);
        return link(code, i) as i64;
    }
    v
}

// A store to the word at a cell.
pub fn store<'a>(code: &'a [u8], values: &'a mut [u8], base: usize, i: usize, cell: usize) -> i64
    requires { Here code.now values.old base i × WordAt (cells_of code.now) base a_target i cell }
    ensures { Performs code.now values.old values.new base i result }
{
    assign(&*code, values, base, i, i + 1, cell)
}

// A store to an element of the array whose first cell is given.
pub fn store_element<'a>(
    code: &'a [u8],
    values: &'a mut [u8],
    base: usize,
    i: usize,
    first: usize,
    size: usize,
) -> i64
    requires { Here code.now values.old base i × ArrayAt (cells_of code.now) base a_target i first size }
    ensures { Performs code.now values.old values.new base i result }
{
    let end = link(code, i + 1);
    let k = element(&*code, &*values, base, first, size, i, end);
    if k < FIRST_ERROR {
        return assign(&*code, values, base, i, end + 1, k as usize);
    }
    k
}
