// The checker: from a text to a code store that is ready to run, or the first rule broken and its place.
// Both stores are lent one by one: check_statements says why.
#![tactic(auto)]

ghost use Rattle.std.specs.Prelude.{◌≡◌};
ghost use Rattle.paper.specs.Answer.{verdict};
ghost use Rattle.text_offsets.specs.Offsets.{Offset};
ghost use Rattle.check_names.specs.Scopes.{BackTo};
ghost use Rattle.check_whole.specs.Checks.{Judges, Checks};
ghost use Rattle.check_whole.specs.Walks.{Laid, Formed, RoutinesStand, RoutinesWalk, Walks};
ghost use Rattle.check_whole.specs.Passes.{Whole, Clean, Settles, Formal};

use check_names::{Scope, Walked};
use layout::limits;
use layout::rules::{Breach, Rule};
use text_words::Refusal;

// A module that breaks no rule.
#[derive(Clone, Copy)]
pub struct Accepted {
    // how many words its text has
    pub words: usize,
    // how many words of data it has
    pub count: usize,
    // the word that main begins with
    pub main: usize,
}

pub type Checked = Result<Accepted, Refusal>;

// ---- names and types

// How many words of data the module has, and the word that main begins with, if there is one.
type Found = Result<(usize, Option<usize>), Breach>;

// The routines one after another, up to the word ENDMODULE at `end`, in the module's scope.
fn all_routines(
    text: &[u8],
    code: &mut [u8],
    values: &mut [u8],
    outer: Scope,
    at: usize,
    end: usize,
) -> Walked
    requires { RoutinesStand text.now code.old values.old at end × (outer.loops ≡ 0) }
    ensures { RoutinesWalk text.now code.old values.old code.new values.new at end result × BackTo outer result }
{
    let mut h = at;
    let mut k = 0;
    let mut scope = outer;
    // no range counts the routines: each begins where the one before it ends
    while h < end {
        let (next, left) = check_routines::routine(text, code, values, scope, k, h)?;
        h = next;
        k += 1;
        scope = left;
    }
    Ok((h, scope))
}

fn names_and_types(text: &[u8], code: &mut [u8], values: &mut [u8], words: usize) -> Found
    requires { Formed text.now code.old values.old words }
    ensures { Walks text.now code.old values.old result code.new values.new }
{
    let main = check_heads::read(text, code, values);
    let (at, data) = check_declarations::module_data(
        Scope::of_module(),
        code,
        values,
        check_heads::FIRST,
    )?;
    let (_, all) = all_routines(text, code, values, data, at, words - 1)?;
    Ok((all.used as usize, main))
}

// ---- the passes

// A rule broken at a word is told with the word's offset.
fn refusal_of(text: &[u8], broken: Breach) -> Refusal
    ensures { (result.rule ≡ broken.rule) × Offset text.now broken.word result.place }
{
    Refusal {
        rule: broken.rule,
        place: text_offsets::offset_of(text, broken.word),
    }
}

// Rules 10 to 18. Then links lead to steps, and behind the module's words the value store is empty.
fn judge_names(text: &[u8], code: &mut [u8], values: &mut [u8], words: usize) -> Checked
    requires { Formed text.now code.old values.old words }
    ensures { Formal text.now code.old values.old result code.new values.new }
{
    match names_and_types(text, code, values, words) {
        Err(broken) => Err(refusal_of(text, broken)),
        Ok((_, None)) => Err(Refusal {
            rule: Rule::NoMain,
            place: 0,
        }),
        Ok((count, Some(main))) => {
            check_links::resolve(code, words);
            store_cells::clear(values, count, limits::STORE_CELLS - count);
            Ok(Accepted { words, count, main })
        }
    }
}

// Rules 8 and 9, and the later ones.
fn judge_form(text: &[u8], code: &mut [u8], values: &mut [u8], words: usize) -> Checked
    requires { Laid text.now code.old values.old words }
    ensures { Formal text.now code.old values.old result code.new values.new }
{
    match check_form::form(code, words) {
        Err(broken) => Err(refusal_of(text, broken)),
        Ok(()) => judge_names(text, code, values, words),
    }
}

// Rules 3 to 7, and the later ones.
fn judge_text(text: &[u8], code: &mut [u8], values: &mut [u8]) -> Checked
    requires { Clean code.old values.old }
    ensures { Settles text.now code.old values.old (verdict text.now) result code.new values.new }
{
    let words = check_load::load(text, code, values)?;
    judge_form(text, code, values, words)
}

// A module that is refused leaves both stores empty.
fn check_cells(text: &[u8], code: &mut [u8], values: &mut [u8]) -> Checked
    requires { Whole code.old values.old }
    ensures { Judges text.now code.old values.old (verdict text.now) result code.new values.new }
{
    store_cells::clear(values, 0, limits::STORE_CELLS);
    match judge_text(text, code, values) {
        Ok(accepted) => Ok(accepted),
        Err(refusal) => {
            store_cells::clear(code, 0, limits::STORE_CELLS);
            store_cells::clear(values, 0, limits::STORE_CELLS);
            Err(refusal)
        }
    }
}

// Beyond their 16,384 words nothing is touched in either store.
pub fn check(text: &[u8], code: &mut [u8], values: &mut [u8]) -> Checked
    ensures { Checks text.now code.old values.old result code.new values.new }
{
    if code.len() < limits::STORE_BYTES || values.len() < limits::STORE_BYTES {
        return Err(Refusal {
            rule: Rule::SmallStore,
            place: 0,
        });
    }
    check_cells(
        text,
        &mut code[..limits::STORE_BYTES],
        &mut values[..limits::STORE_BYTES],
    )
}
