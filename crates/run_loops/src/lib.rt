// FOR and ENDFOR.
// Why steps take and answer what they do stands in run_machine/src/lib.rt.
#![tactic(auto)]

ghost use Rattle.std.specs.Prelude.{◌≡◌};
ghost use Rattle.paper.specs.Running as running;
ghost use Rattle.code.specs.Steps.{a_for, a_for_test};
ghost use Rattle.store_evaluation.specs.Answers.{Stores};
ghost use Rattle.run_machine.specs.Machine.{Here, Performs, Says};
ghost use Rattle.run_loops.specs.Loops.{ForSteps, StepGiven, DoAt, Begins};

use layout::answers::FIRST_ERROR;
use layout::cells::{ENDS, STEPS};
use layout::{ops, parts};
use store_evaluation::worth;
use store_reading::{head, link, load, put, value};

// "Step 0 or more: go on while not above the end; below 0: while not below."
fn passes(z: i64, end: i64, step: i64) -> bool
    ensures { result ≡ running.passes z (record { end = end; step = step }) }
{
    if step < 0 {
        return !(z < end);
    }
    !(end < z)
}

// An ENDFOR whose value is t: the variable's word, and above it the FOR.
pub fn for_test<'a>(code: &'a [u8], values: &'a mut [u8], base: usize, i: usize, t: usize) -> i64
    requires { Here code.now values.old base i × Says code.now i a_for_test t }
    ensures { Performs code.now values.old values.new base i result }
{
    let k = base + t % parts::LOOPS;
    let step = load(&*values, k + STEPS);
    let z = load(&*values, k) + step;
    if passes(z, load(&*values, k + ENDS), step) {
        put(values, k, z);
        return link(code, i) as i64;
    }
    link(code, t / parts::LOOPS) as i64
}

// What the step of a FOR from a to b is worth whose STEP or DO is at s. "Without STEP, the step is 1 if the start isn't above the end, else -1."
fn step_of<'a>(code: &'a [u8], values: &'a [u8], base: usize, s: usize, a: i64, b: i64) -> i64
    requires { Stores values.now base × ForSteps code.now s }
    ensures { StepGiven code.now values.now base s a b result }
{
    if head(code, s) % parts::VALUE == ops::STEP {
        return worth(&*code, &*values, base, s + 1, link(code, s));
    }
    if b < a {
        return -1;
    }
    1
}

// The DO of a FOR whose STEP or DO is at s.
fn do_of(code: &[u8], s: usize) -> usize
    requires { ForSteps code.now s }
    ensures { DoAt code.now s result }
{
    if head(code, s) % parts::VALUE == ops::STEP {
        return link(code, s);
    }
    s
}

// A FOR whose variable is the call's word t.
pub fn enter_for<'a>(code: &'a [u8], values: &'a mut [u8], base: usize, i: usize, t: usize) -> i64
    requires { Here code.now values.old base i × Says code.now i a_for t }
    ensures { Performs code.now values.old values.new base i result }
{
    let to = link(code, i + 2);
    let a = worth(&*code, &*values, base, i + 3, to);
    if FIRST_ERROR <= a {
        return a;
    }
    let s = link(code, to);
    let b = worth(&*code, &*values, base, to + 1, s);
    if FIRST_ERROR <= b {
        return b;
    }
    let c = step_of(&*code, &*values, base, s, a, b);
    if FIRST_ERROR <= c {
        return c;
    }
    begin(&*code, values, base, i, t, s, a, b, c)
}

// A FOR whose head is worked out: its loop goes from a to b by c, and its STEP or DO is at s.
fn begin<'a>(
    code: &'a [u8],
    values: &'a mut [u8],
    base: usize,
    i: usize,
    t: usize,
    s: usize,
    a: i64,
    b: i64,
    c: i64,
) -> i64
    requires { Begins code.now values.old base i t s a b c }
    ensures { Performs code.now values.old values.new base i result }
{
    let k = base + t;
    put(values, k + ENDS, b);
    put(values, k + STEPS, c);
    if passes(a, b, c) {
        put(values, k, a);
        return value(code, do_of(code, s)) as i64;
    }
    link(code, i) as i64
}
