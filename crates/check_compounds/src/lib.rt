// Statements that hold lists, but for the lists: the head of a FOR, the values of a CASE, and what is written over the words that open and close a WHILE, a FOR, an arm of an IF.
// Both stores are lent one by one: check_statements says why.
#![tactic(auto)]

ghost use Rattle.paper.specs.Words.{word_limit};
ghost use Rattle.check_names.specs.Promises.{store_bytes};
ghost use Rattle.std.specs.Prelude.{◌+◌, ◌*◌, ◌<◌, ◌≤◌, length};
ghost use Rattle.check_compounds.specs.Parts.{WhileEnded, Bounds, Bounded, Steps, ForStepped, ForHeads, ForNamed, ForHeaded, ForEnded, BehindElse, ArmEnded, CaseValues, CaseValued, Chained, ValuesLinked};

use check_around::Stepped;
use layout::rules::{Breach, Rule};
use layout::types::ValueType;
use layout::{limits, ops, parts};
use store_writing::{rewrite, set_head, set_link, set_word, sort};

// ---- WHILE

// WHILE at i, whose DO is at d and whose ENDWHILE at e.
pub fn while_end(code: &mut [u8], i: usize, d: usize, e: usize)
    requires { (i < d) × (d < e) × (e < word_limit) × (store_bytes ≤ length code.old) }
    ensures { WhileEnded code.old code.new i d e }
{
    set_word(code, d, ops::DO, (d + 1) as u32, 0);
    set_word(code, e, ops::PASS, 0, i);
    set_word(code, i, ops::WHILE, d as u32, e + 1);
}

// ---- FOR

// A bound: an expression behind a word, whose link is its end.
fn bound(code: &mut [u8], values: &[u8], i: usize) -> Stepped
    requires { Bounds code.old values.now i }
    ensures { Bounded code.old values.now code.new i result }
{
    let (_, n) = check_expressions::typed(code, values, false, ValueType::Num, i + 1)?;
    set_link(code, i, n);
    Ok(n)
}

// STEP with its bound, or DO, at s.
fn for_step(code: &mut [u8], values: &[u8], s: usize) -> Stepped
    requires { Steps code.old values.now s }
    ensures { ForStepped code.old values.now code.new s result }
{
    if sort(code, s) != text_sorts::STEP {
        return Ok(s);
    }
    set_head(code, s, ops::STEP, 0);
    bound(code, values, s)
}

// The variable of the FOR at i, and what comes behind it.
fn for_name<'a>(code: &'a [u8], values: &'a [u8], used: u32, i: usize) -> Stepped
    requires { ForHeads code.now values.now used i }
    ensures { ForNamed code.now values.now used i result }
{
    let m = check_names::meaning(code, values, i + 1);
    if check_names::is_protected(m) {
        return Err(Breach {
            rule: Rule::TakenName,
            word: i + 1,
        });
    }
    if check_sites::is_taken(code, values, check_names::OF_ROUTINE, i + 1) {
        return Err(Breach {
            rule: Rule::HidingLoop,
            word: i + 1,
        });
    }
    if used == limits::ROUTINE_COUNT {
        return Err(Breach {
            rule: Rule::TooMany,
            word: i + 1,
        });
    }
    Ok(i + 2)
}

// From the FOR at i up to its DO.
pub fn for_head(code: &mut [u8], values: &[u8], used: u32, i: usize) -> Stepped
    requires { ForHeads code.old values.now used i }
    ensures { ForHeaded code.old values.now code.new used i result }
{
    let from = for_name(code, values, used, i)?;
    let to = bound(code, values, from)?;
    let s = bound(code, values, to)?;
    for_step(code, values, s)
}

// FOR at i, whose DO is at d and whose ENDFOR at e.
pub fn for_end(code: &mut [u8], used: u32, i: usize, d: usize, e: usize)
    requires { (used < 64) × (i < d) × (d < e) × (e < word_limit) × (store_bytes ≤ length code.old) }
    ensures { ForEnded code.old code.new used i d e }
{
    set_word(code, d, ops::DO, (d + 1) as u32, 0);
    set_word(code, i, ops::FOR, used, e + 1);
    let p = store_reading::place(code, i);
    rewrite(
        code,
        e,
        ops::FOR_TEST + parts::VALUE * (used + parts::LOOP * (i as u32)),
        p,
        d + 1,
    );
}

// ---- IF

// Where the list of a THEN goes on that is closed by the word e, unless an ELSEIF does that: behind an ELSE.
fn behind_else(code: &[u8], e: usize) -> usize
    requires { (e < word_limit) × (store_bytes ≤ length code.now) }
    ensures { BehindElse code.now e result }
{
    if sort(code, e) == text_sorts::ELSE {
        e + 1
    } else {
        e
    }
}

// The list of the THEN at t is closed by the word e. Its arm begins with the word c.
pub fn arm_end(code: &mut [u8], op: u32, c: usize, t: usize, e: usize)
    requires { (op < 256) × (c < t) × (t < e) × (e < word_limit) × (store_bytes ≤ length code.old) }
    ensures { ArmEnded code.old code.new op c t e }
{
    let link = behind_else(code, e);
    set_word(code, t, ops::THEN, (t + 1) as u32, link);
    set_word(code, c, op, t as u32, e);
}

// ---- TEST

// The values of one CASE, from its word on, each in the word before it; the colon behind them.
pub fn case_values(code: &mut [u8], values: &[u8], c: usize) -> Stepped
    requires { CaseValues code.old values.now c }
    ensures { CaseValued code.old values.now code.new c result }
{
    let mut w = c;
    let mut op = ops::CASE;
    // No `for`: where the next value is, the one before it tells.
    loop {
        let (v, n) = check_constants::constant(code, values, ValueType::Num, w + 1)?;
        set_word(code, w, op, check_constants::held(v), n);
        if sort(code, n) != text_sorts::COMMA {
            return Ok(n);
        }
        w = n;
        op = ops::NEXT_VALUE;
    }
}

// From a CASE up to its colon, each value gets the list's first word as its place; the last one's link is what closes the list.
pub fn link_values(code: &mut [u8], c: usize, colon: usize, next: usize)
    requires { Chained code.old colon c × (next < word_limit) }
    ensures { ValuesLinked code.old code.new colon next c }
{
    let mut w = c;
    // No `for`: each value's link in the store says where the next one is.
    loop {
        let h = store_cells::get(code, w * 2);
        let n = (store_cells::get(code, w * 2 + 1) / parts::LINK) as usize;
        if n == colon {
            rewrite(code, w, h, colon + 1, next);
            return;
        }
        rewrite(code, w, h, colon + 1, n);
        w = n;
    }
}
