// IF, WHILE and RAISE: what decides where a run goes on.
// Why steps take and answer what they do stands in run_machine/src/lib.rt.
#![tactic(auto)]

ghost use Rattle.code.specs.Steps.{a_raise_of, a_compact_if, an_if, a_while};
ghost use Rattle.run_machine.specs.Machine.{Here, Performs, Says};

use layout::answers::FIRST_ERROR;
use layout::{ops, parts};
use store_evaluation::worth;
use store_reading::{head, link, value};

// ---- IF

// A compact IF whose statement is at t.
pub fn test_if<'a>(code: &'a [u8], values: &'a [u8], base: usize, i: usize, t: usize) -> i64
    requires { Here code.now values.now base i × Says code.now i a_compact_if t }
    ensures { Performs code.now values.now values.now base i result }
{
    let v = worth(&*code, &*values, base, i + 1, t);
    if FIRST_ERROR <= v {
        return v;
    }
    if v != 0 {
        return t as i64;
    }
    link(code, i) as i64
}

// An IF whose first THEN is at w: the first condition that holds says where to go on, or what follows the last. A walk along links, no count.
pub fn choose<'a>(code: &'a [u8], values: &'a [u8], base: usize, i: usize, w: usize) -> i64
    requires { Here code.now values.now base i × Says code.now i an_if w }
    ensures { Performs code.now values.now values.now base i result }
{
    let mut j = i;
    let mut t = w;
    loop {
        let v = worth(&*code, &*values, base, j + 1, t);
        if FIRST_ERROR <= v {
            return v;
        }
        if v != 0 {
            return value(code, t) as i64;
        }
        j = link(code, t);
        let h = head(code, j);
        if h % parts::VALUE != ops::ELSE_IF {
            return j as i64;
        }
        t = (h / parts::VALUE) as usize;
    }
}

// ---- WHILE

// A WHILE whose DO is at t. Unlike a compact IF it goes on where the word at t says, so that one function for both would ask which of them it is.
pub fn test_while<'a>(code: &'a [u8], values: &'a [u8], base: usize, i: usize, t: usize) -> i64
    requires { Here code.now values.now base i × Says code.now i a_while t }
    ensures { Performs code.now values.now values.now base i result }
{
    let v = worth(&*code, &*values, base, i + 1, t);
    if FIRST_ERROR <= v {
        return v;
    }
    if v != 0 {
        return value(code, t) as i64;
    }
    link(code, i) as i64
}

// ---- RAISE

// what can be raised: "1..90"
const LOWEST_RAISED: i64 = 1;

const HIGHEST_RAISED: i64 = 90;

const ILL_RAISE: i64 = FIRST_ERROR + store_numbers::ERR_ILLRAISE as i64;

// RAISE of an expression that ends at t.
pub fn raise<'a>(code: &'a [u8], values: &'a [u8], base: usize, i: usize, t: usize) -> i64
    requires { Here code.now values.now base i × Says code.now i a_raise_of t }
    ensures { Performs code.now values.now values.now base i result }
{
    let v = worth(&*code, &*values, base, i + 1, t);
    if FIRST_ERROR <= v {
        return v;
    }
    if v < LOWEST_RAISED {
        return ILL_RAISE;
    }
    if HIGHEST_RAISED < v {
        return ILL_RAISE;
    }
    FIRST_ERROR + v
}
