// The checker's third pass: what is known before its declaration. Names of module data are to come; each routine's first word has how many parameters it has, its
// types are marked where they are not asked, and its name means it.
// Both stores are lent one by one: check_statements says why.
#![tactic(auto)]

ghost use Rattle.paper.specs.Words.{word_limit};
ghost use Rattle.std.specs.Prelude.{◌≡◌, ◌+◌, ◌*◌, ◌<◌, ◌≤◌, length, IfSome};
ghost use Rattle.paper.specs.Sorts.{bytes, equal_texts};
ghost use Rattle.store_cells.specs.Cells.{cells_of};
ghost use Rattle.code.specs.Cells.{place_at};
ghost use Rattle.check_names.specs.Promises.{store_bytes};
ghost use Rattle.check_heads.specs.Stores.{length_at, spelled_at};
ghost use Rattle.check_heads.specs.Parts.{Has, Next, Announces, DataStand, Data, refuses, Marks, ParametersStand, Parameters, Names, RoutineStands, Begun, Takes, main_word, RoutinesStand, Routines};
ghost use Rattle.check_heads.specs.Reads.{Begins, Reads};

use check_names::MEANINGS;
use check_spelling::same;
use layout::{kinds, limits, parts};
use store_writing::{set_value, sort};
use text_sorts::*;

// The word behind MODULE and its name.
pub const FIRST: usize = 2;

// ---- words

// The first word from `at` on that is of one of two sorts. Words lie in a store of cells, which has no iterator of words: so here and below they go by index.
fn next(code: &[u8], at: usize, a: u32, b: u32) -> usize
    requires { Has code.now at a b }
    ensures { Next code.now at a b result }
{
    let mut i = at;
    loop {
        let s = sort(code, i);
        if s == a || s == b {
            return i;
        }
        i += 1;
    }
}

// ---- module data

// The name at a word is to come, if it is not protected.
fn announce(code: &[u8], values: &mut [u8], i: usize)
    requires { (i * 8 + 8 ≤ length code.now) × (store_bytes ≤ length values.old) }
    ensures { Announces code.now values.old i values.new }
{
    if check_names::meaning(code, values, i) != check_names::UNKNOWN {
        return;
    }
    store_cells::put(
        values,
        MEANINGS + check_names::number(code, i),
        check_names::TO_COME,
    );
}

// The names of the data from `at` on; the word behind them.
fn data_names(code: &[u8], values: &mut [u8], at: usize) -> usize
    requires { DataStand code.now values.old at }
    ensures { Data code.now values.old at values.new result }
{
    let mut i = at;
    while starts_data(sort(code, i)) {
        announce(code, values, i + 2);
        i = next(code, i + 2, SEMICOLON, SEMICOLON) + 1;
    }
    i
}

// ---- parameters

// A parameter is refused, by what its name means and in which routine it was seen; 0 says in none, as the cell does.
#[tactic(auto, unfolding(crate::specs::Parts::refuses))]
fn is_refused(m: u32, seen: u32, h: u32, count: usize) -> bool
    ensures { result ≡ refuses m seen h count }
{
    check_names::is_protected(m) || seen == h || count == limits::ROUTINE_WORDS
}

// Marks the parameter whose type is at i, and notes that its name was seen in the routine that begins at h.
fn parameter(code: &mut [u8], values: &mut [u8], h: u32, i: usize, count: usize)
    requires { (i * 8 + 16 ≤ length code.old) × (store_bytes ≤ length values.old) }
    ensures { Marks code.old values.old h i count code.new values.new }
{
    let n = check_names::number(code, i + 1);
    let m = store_cells::get(values, MEANINGS + n);
    let seen = store_cells::get(values, n);
    set_value(code, i, u32::from(is_refused(m, seen, h, count)));
    store_cells::put(values, n, h);
}

// Marks the parameters from the first one's type on; how many there are.
fn parameters(code: &mut [u8], values: &mut [u8], h: u32, at: usize) -> usize
    requires { ParametersStand code.old values.old h at }
    ensures { Parameters code.old values.old h at code.new values.new result }
{
    if sort(code, at) == CLOSE_PAREN {
        return 0;
    }
    let mut i = at;
    let mut count = 0;
    loop {
        parameter(code, values, h, i, count);
        count += 1;
        if sort(code, i + 2) != COMMA {
            return count;
        }
        i += 3;
    }
}

// ---- routines

// The word of the name of routine k, which begins at h. A result's type is marked where it is not asked.
fn name_of(code: &mut [u8], h: usize, k: usize) -> usize
    requires { h * 8 + 16 ≤ length code.old }
    ensures { Names code.old h k code.new result }
{
    if sort(code, h) != FUNC {
        return h + 1;
    }
    set_value(code, h + 1, u32::from(k == limits::ROUTINES));
    h + 2
}

// The head of routine k, which begins at h; the word of its name.
fn head(code: &mut [u8], values: &mut [u8], h: usize, k: usize) -> usize
    requires { RoutineStands code.old values.old h k }
    ensures { Begun code.old values.old h k code.new values.new result }
{
    let name = name_of(code, h, k);
    let count = parameters(code, values, h as u32, name + 2);
    set_value(code, h, count as u32);
    name
}

// The name at a word is spelled MAIN.
fn is_main(text: &[u8], code: &[u8], i: usize) -> bool
    requires { (i * 8 + 8 ≤ length code.now) × (place_at (cells_of code.now) i + length_at (cells_of code.now) i ≤ length text.now) }
    ensures { result ≡ equal_texts (spelled_at text.now (cells_of code.now) i) (bytes "MAIN") }
{
    let place = store_reading::place(code, i);
    let end = place + store_reading::value(code, i) / parts::SPELLED_AT;
    same(&text[place..end], b"MAIN")
}

// The name of the routine that begins at h means it, if it means nothing yet. The first MAIN so far: the word that it begins with.
fn take_name(
    text: &[u8],
    code: &[u8],
    values: &mut [u8],
    h: usize,
    name: usize,
    main: Option<usize>,
) -> Option<usize>
    requires { (name * 8 + 8 ≤ length code.now) × (place_at (cells_of code.now) name + length_at (cells_of code.now) name ≤ length text.now) × (store_bytes ≤ length values.old) × (h < word_limit) }
    ensures { Takes text.now code.now values.old h name main values.new result }
{
    if check_names::meaning(code, values, name) != check_names::UNKNOWN {
        return main;
    }
    store_cells::put(
        values,
        MEANINGS + check_names::number(code, name),
        check_names::cell_with(kinds::ROUTINE, 0, 0, h as u32),
    );
    if main.is_none() && is_main(text, code, name) {
        return Some(h);
    }
    main
}

// The word that main begins with; none if it is a FUNC, or has parameters.
#[tactic(auto, unfolding(crate::specs::Parts::main_word))]
fn main_of(code: &[u8], main: Option<usize>) -> Option<usize>
    requires { IfSome main (λ h. h * 8 + 8 ≤ length code.now) }
    ensures { result ≡ main_word (cells_of code.now) main }
{
    let h = main?;
    if sort(code, h) == FUNC || store_reading::value(code, h) != 0 {
        return None;
    }
    Some(h)
}

// The heads and names of the routines from `at` on. The cells of names that were seen are 0 again.
fn routines(text: &[u8], code: &mut [u8], values: &mut [u8], at: usize) -> Option<usize>
    requires { RoutinesStand text.now code.old values.old at }
    ensures { Routines text.now code.old values.old at code.new values.new result }
{
    let mut i = at;
    let mut k = 0;
    let mut main = None;
    while starts_routine(sort(code, i)) {
        let name = head(code, values, i, k);
        main = take_name(text, code, values, i, name, main);
        i = next(code, name, ENDPROC, ENDFUNC) + 1;
        k += 1;
    }
    store_cells::clear(values, 0, i);
    main_of(code, main)
}

// What is known before its declaration. The word that main begins with, none if there is no PROC main without parameters.
pub fn read(text: &[u8], code: &mut [u8], values: &mut [u8]) -> Option<usize>
    requires { Begins text.now code.old values.old }
    ensures { Reads text.now code.old values.old code.new values.new result }
{
    let at = data_names(code, values, FIRST);
    routines(text, code, values, at)
}
