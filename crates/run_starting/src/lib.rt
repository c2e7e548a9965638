// The words of a new call: its data and its FOR variables.
#![tactic(auto)]

ghost use Rattle.std.specs.Prelude.{◌+◌, ◌*◌, ◌≤◌, length};
ghost use Rattle.std.specs.Int.{w32};
ghost use Rattle.std.proofs.Common.{SFits};
ghost use Rattle.code.specs.Windows.{steps_cell};
ghost use Rattle.run_starting.specs.Starting.{Filled, Idled, Starts, Started};

use layout::cells::{ENDS, STEPS};
use layout::{ops, parts};
use store_reading::{head, link, place, put};

// Makes `count` cells from `at` on hold v: the cell behind them. Most data are one word, for which a loop is long.
fn fill(values: &mut [u8], at: usize, count: usize, v: i64) -> usize
    requires { ((at + count) * 4 ≤ length values.old) × SFits w32 v }
    ensures { Filled values.old values.new at count v result }
{
    if count == 1 {
        put(values, at, v);
        return at + 1;
    }
    for k in 0..count {
        put(values, at + k, v);
    }
    at + count
}

// The FOR variables, which begin at a cell: no loop is live.
fn start_loops(values: &mut [u8], at: usize, fors: usize)
    requires { (at + fors + steps_cell) * 4 ≤ length values.old }
    ensures { Idled values.old values.new at fors }
{
    for k in 0..fors {
        put(values, at + k, 0);
        put(values, at + k + ENDS, 0);
        put(values, at + k + STEPS, 0);
    }
}

// The words of a new call behind its arguments: its routine's data, which begin at the word `first`, from a cell on, and its FOR variables.
// Their words are a walk along links, no count.
pub fn start_words<'a>(code: &'a [u8], values: &'a mut [u8], first: usize, at: usize)
    requires { Starts code.now values.old first at }
    ensures { Started code.now values.old values.new first at }
{
    let mut q = first;
    let mut n = at;
    let mut w = head(code, q);
    while w % parts::VALUE == ops::DATUM {
        n = fill(
            values,
            n,
            place(code, q),
            (w / parts::VALUE) as i64 - parts::SIGNED_BIAS,
        );
        q = link(code, q);
        w = head(code, q);
    }
    start_loops(values, n, place(code, q));
}
