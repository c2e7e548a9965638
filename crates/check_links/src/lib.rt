// From the last word to the first: what leads to a word that only closes a list leads on to where that list goes on.
#![tactic(auto)]

ghost use Rattle.std.specs.Prelude.{◌≡◌, true, ◌+◌, ◌*◌, ◌<◌, ◌≤◌, length};
ghost use Rattle.check_links.specs.Resolved.{step_by_link, goes_by_link, goes_by_value, goes_by_place, Beyond, LedValue, LedPlace, LedLink, Turned, Resolved};

use layout::{ops, parts};
use store_writing::sort;

// Ops are parts of lent cells, so they are numbers.
// Of steps: all but a procedure call, which goes on by the word that closes it, and a list's end.
fn step_by_link(op: u32) -> bool
    ensures { result ≡ step_by_link op }
{
    !matches!(
        op,
        ops::PROCEDURE_CALL | ops::END | ops::FUNCTION_END | ops::UNDO_END
    )
}

#[tactic(auto, unfolding(crate::specs::Resolved::goes_by_link))]
fn goes_by_link(op: u32) -> bool
    ensures { result ≡ goes_by_link op }
{
    if op < ops::TARGET {
        return false;
    }
    if op < ops::ELSE_IF {
        return step_by_link(op);
    }
    matches!(
        op,
        ops::ELSE_IF | ops::THEN | ops::PASS | ops::OTHERWISE | ops::CLOSE
    )
}

#[tactic(auto, unfolding(crate::specs::Resolved::goes_by_value))]
fn goes_by_value(op: u32) -> bool
    ensures { result ≡ goes_by_value op }
{
    matches!(op, ops::THEN | ops::DO)
}

#[tactic(auto, unfolding(crate::specs::Resolved::goes_by_place))]
fn goes_by_place(op: u32) -> bool
    ensures { result ≡ goes_by_place op }
{
    matches!(op, ops::CASE | ops::NEXT_VALUE | ops::OTHERWISE)
}

// Where a list goes on that ends at word z, or z itself where it is a step. What leads out of the words stays.
fn beyond(code: &[u8], words: usize, z: usize) -> usize
    requires { (words * 8 ≤ length code.now) × (z < 16777216) }
    ensures { Beyond code.now words z result }
{
    if words <= z + 1 {
        return z;
    }
    let here = sort(code, z);
    if here < ops::ELSE_IF {
        return z;
    }
    if here == ops::CASE {
        return store_reading::link(code, z + 1);
    }
    store_reading::link(code, z)
}

fn led_value(code: &[u8], words: usize, op: u32, v: usize) -> usize
    requires { (words * 8 ≤ length code.now) × (v < 16777216) }
    ensures { LedValue code.now words op v result }
{
    if goes_by_value(op) {
        return beyond(code, words, v);
    }
    v
}

fn led_place(code: &[u8], words: usize, op: u32, p: usize) -> usize
    requires { (words * 8 ≤ length code.now) × (p < 65536) }
    ensures { LedPlace code.now words op p result }
{
    if goes_by_place(op) {
        return beyond(code, words, p);
    }
    p
}

// A THEN that leads to an ELSEIF stays: there the next condition is found.
fn led_link(code: &[u8], words: usize, op: u32, l: usize) -> usize
    requires { (words * 8 ≤ length code.now) × (l < 65536) }
    ensures { LedLink code.now words op l result }
{
    if !goes_by_link(op) {
        return l;
    }
    if words <= l {
        return l;
    }
    if op != ops::THEN {
        return beyond(code, words, l);
    }
    if sort(code, l) == ops::ELSE_IF {
        return l;
    }
    beyond(code, words, l)
}

fn resolve_word(code: &mut [u8], words: usize, i: usize)
    requires { (words * 8 ≤ length code.old) × (i < words) }
    ensures { Turned code.old code.new words i }
{
    let op = sort(code, i);
    if op < ops::TARGET {
        return;
    }
    let v = led_value(code, words, op, store_reading::value(code, i));
    let p = led_place(code, words, op, store_reading::place(code, i));
    let l = led_link(code, words, op, store_reading::link(code, i));
    store_writing::rewrite(code, i, op + parts::VALUE * (v as u32), p, l);
}

// Makes the links of a text's words lead to steps.
pub fn resolve(code: &mut [u8], words: usize)
    requires { (words ≤ 8192) × (words * 8 ≤ length code.old) }
    ensures { Resolved code.old code.new words }
{
    for i in (0..words).rev() {
        resolve_word(code, words, i);
    }
}
