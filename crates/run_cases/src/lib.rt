// TEST and its cases.
// Why steps take and answer what they do stands in run_machine/src/lib.rt.
#![tactic(auto)]

ghost use Rattle.std.specs.Int.{w32};
ghost use Rattle.std.proofs.Common.{SFits};
ghost use Rattle.code.specs.Steps.{a_test};
ghost use Rattle.run_machine.specs.Machine.{Here, Performs, Says};
ghost use Rattle.run_cases.specs.Cases.{Cases, Matches};

use layout::answers::FIRST_ERROR;
use layout::{ops, parts};
use store_evaluation::worth;
use store_reading::{head, link, place};

// Where a TEST with the value v goes on: from the word `first` on, the first word with that value says it, or what follows them.
// A walk along links, no count.
fn matching(code: &[u8], first: usize, v: i64) -> usize
    requires { SFits w32 v × Cases code.now first }
    ensures { Matches code.now first v result }
{
    let key = v + parts::SIGNED_BIAS;
    let mut j = first;
    loop {
        let w = head(code, j);
        if w % parts::VALUE == ops::OTHERWISE {
            return place(code, j);
        }
        if (w / parts::VALUE) as i64 == key {
            return place(code, j);
        }
        j = link(code, j);
    }
}

// A TEST whose first CASE, or what stands in its place, is at t.
pub fn select<'a>(code: &'a [u8], values: &'a [u8], base: usize, i: usize, t: usize) -> i64
    requires { Here code.now values.now base i × Says code.now i a_test t }
    ensures { Performs code.now values.now values.now base i result }
{
    let v = worth(&*code, &*values, base, i + 1, t);
    if FIRST_ERROR <= v {
        return v;
    }
    matching(code, t, v) as i64
}
