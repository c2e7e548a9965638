// The check of a routine: its name, parameters, data, list, ERROR list and UNDO list. What a run has to know of it is written over its words in the code store; when its scope is left the table
// of meanings says again what names mean in the module.
// Both stores are lent one by one: check_statements says why.
#![tactic(auto)]

ghost use Rattle.paper.specs.Words.{word_limit};
ghost use Rattle.paper.specs.Checks.{the_body};
ghost use Rattle.layout.specs.Parts.{link_part};
ghost use Rattle.std.specs.Prelude.{◌≡◌, ◌+◌, ◌*◌, ◌<◌, ◌≤◌, length};
ghost use Rattle.store_cells.specs.Cells.{cells_of};
ghost use Rattle.code.specs.Cells.{link_at};
ghost use Rattle.check_links.specs.Raw.{end_of};
ghost use Rattle.store_writing.specs.Promises.{Linked};
ghost use Rattle.check_names.specs.Scopes.{EachHasWord, Stays, BackTo};
ghost use Rattle.check_routines.specs.Answers.{Begins, Checks};
ghost use Rattle.check_routines.specs.Parts.{names_routine, result_in, name_with, Finishes, first_behind, Closes, BehindStands, Behind, ListsStand, Lists, ScopeStands, Scoped};

use check_around::Setting;
use check_around::lists::WhichList;
use check_names::{Scope, Walked};
use layout::rules::{Breach, Rule};
use layout::types::ValueType;
use layout::{kinds, limits, ops};
use store_writing::{set_head, sort};

// the number that the first routine too many has
const ROUTINES: u32 = limits::ROUTINES as u32;

// ---- the head

// Whether a cell of the table says that its name is the routine that begins at h.
fn names_routine(m: u32, h: usize) -> bool
    ensures { result ≡ names_routine m h }
{
    check_names::kind_of(m) == kinds::ROUTINE && check_names::value_of(m) as usize == h
}

// The type of what it gives back: none of a PROC.
#[tactic(auto, unfolding(crate::specs::Parts::result_in))]
fn result_of(code: &[u8], h: usize) -> Option<ValueType>
    requires { h * 8 + 16 ≤ length code.now }
    ensures { result ≡ result_in (cells_of code.now) h }
{
    if sort(code, h) == text_sorts::PROC {
        return None;
    }
    if sort(code, h + 1) == text_sorts::BOOL {
        return Some(ValueType::Bool);
    }
    Some(ValueType::Num)
}

#[tactic(auto, unfolding(crate::specs::Parts::name_with))]
fn name_of(res: Option<ValueType>, h: usize) -> usize
    requires { h < word_limit }
    ensures { result ≡ name_with res h }
{
    match res {
        None => h + 1,
        Some(_) => h + 2,
    }
}

// ---- words

// What a run has to know of the routine that begins at h: the first word of its list, and how many FOR variables it has.
fn finish(code: &mut [u8], h: usize, opens: usize, at: usize, fors: u32)
    requires { (h < opens) × (opens * 8 + 8 ≤ length code.old) × (at < link_part) × (fors < link_part) }
    ensures { Finishes code.old code.new h opens at fors }
{
    store_writing::set_place(code, h, at);
    store_writing::rewrite(code, opens, ops::PARAMETERS, fors as usize, 0);
}

// The word e is a list's end, but for an UNDO list.
fn end_list(code: &mut [u8], function: bool, e: usize)
    requires { e * 8 + 8 ≤ length code.old }
    ensures { Linked code.old code.new e (end_of the_body function) 0 (link_at (cells_of code.old) e) }
{
    if function {
        set_head(code, e, ops::FUNCTION_END, 0);
    } else {
        set_head(code, e, ops::END, 0);
    }
}

// Where the list begins that stands behind the word e and is closed by z; 0 where there is none, as the cells have it (Closes).
fn first_behind(e: usize, z: usize) -> usize
    requires { e < word_limit }
    ensures { result ≡ first_behind e z }
{
    if z == e {
        return 0;
    }
    e + 1
}

// The words e, z and w close the list, the ERROR list and the UNDO list of the routine that begins at h: each is its list's end. Where there is no such list, its word closes the one
// before it, so the last is written first.
fn close(code: &mut [u8], function: bool, h: usize, e: usize, z: usize, w: usize)
    requires { (h + 1 < e) × (e ≤ z) × (z ≤ w) × (w < word_limit) × (w * 8 + 8 ≤ length code.old) }
    ensures { Closes code.old code.new function h e z w }
{
    set_head(code, w, ops::UNDO_END, 0);
    end_list(code, function, z);
    end_list(code, function, e);
    let head = store_reading::head(code, h + 1);
    let undo = first_behind(z, w);
    let handler = first_behind(e, z);
    store_writing::rewrite(code, h + 1, head, undo, handler);
}

// ---- lists

// The list behind the word e that closes another, if e is of the sort that leads it.
fn list_behind(
    text: &[u8],
    code: &mut [u8],
    values: &mut [u8],
    setting: Setting,
    scope: Scope,
    leader: u32,
    e: usize,
) -> Walked
    requires { BehindStands text.now code.old values.old setting scope.used leader e × EachHasWord scope }
    ensures { Behind text.now code.old values.old code.new values.new setting scope.used leader e result × Stays scope result }
{
    if sort(code, e) != leader {
        return Ok((e, scope));
    }
    check_statements::list(text, code, values, setting, scope, e + 1)
}

// The lists of the routine that begins at h, from the word `at` on, with their ends. Its second word leads to its ERROR list, and has the first word of its UNDO list as its place.
fn lists(
    text: &[u8],
    code: &mut [u8],
    values: &mut [u8],
    res: Option<ValueType>,
    scope: Scope,
    h: usize,
    at: usize,
) -> Walked
    requires { ListsStand text.now code.old values.old res scope.used h at × EachHasWord scope }
    ensures { Lists text.now code.old values.old code.new values.new res scope.used h at result × Stays scope result }
{
    let setting = Setting {
        result: res,
        list: WhichList::Body,
    };
    let (e, body) = check_statements::list(text, code, values, setting, scope, at)?;
    let setting = Setting {
        result: res,
        list: WhichList::Handler,
    };
    let (z, both) = list_behind(text, code, values, setting, body, text_sorts::ERROR, e)?;
    let setting = Setting {
        result: res,
        list: WhichList::Undo,
    };
    let (w, all) = list_behind(text, code, values, setting, both, text_sorts::UNDO, z)?;
    close(code, res.is_some(), h, e, z, w);
    Ok((w + 1, all))
}

// ---- a routine

// All that stands behind its name: its scope is entered from the outer one, to which it is left behind its lists.
fn scope(
    text: &[u8],
    code: &mut [u8],
    values: &mut [u8],
    res: Option<ValueType>,
    outer: Scope,
    h: usize,
    name: usize,
) -> Walked
    requires { ScopeStands text.now code.old values.old res h name × (outer.loops ≡ 0) }
    ensures { Scoped text.now code.old values.old code.new values.new res h name result × BackTo outer result }
{
    let entered = outer.enter_routine(name + 2, h);
    let (close, own) = check_parameters::parameters(entered, code, values)?;
    let (at, taken) = check_declarations::routine_data(own, code, values, name + 1, close + 1)?;
    let (next, all) = lists(text, code, values, res, taken, h, at)?;
    finish(code, h, name + 1, at, all.used - taken.used);
    let left = check_leaving::leave_routine(all, outer, code, values);
    Ok((next, left))
}

// Routine k, which begins at the word h, in the scope of a module: no loop is around it.
pub fn routine(
    text: &[u8],
    code: &mut [u8],
    values: &mut [u8],
    outer: Scope,
    k: u32,
    h: usize,
) -> Walked
    requires { Begins text.now code.old values.old k h × (outer.loops ≡ 0) }
    ensures { Checks text.now code.old values.old code.new values.new k h result × BackTo outer result }
{
    let result = result_of(code, h);
    let name = name_of(result, h);
    let m = check_names::meaning(code, values, name);
    if !names_routine(m, h) {
        return Err(Breach {
            rule: Rule::TakenName,
            word: name,
        });
    }
    if k == ROUTINES {
        return Err(Breach {
            rule: Rule::TooMany,
            word: name,
        });
    }
    scope(text, code, values, result, outer, h, name)
}
