// One declaration of data: a scalar or an array, of the module or of a routine.
// Both stores are lent one by one: check_statements says why.
#![tactic(auto)]

ghost use Rattle.std.specs.Prelude.{◌≡◌, ◌+◌, ◌*◌, ◌<◌, ◌≤◌, length, OnErr};
ghost use Rattle.std.specs.Int.{w32};
ghost use Rattle.std.proofs.Common.{of_z};
ghost use Rattle.paper.specs.Sorts.{open_brace};
ghost use Rattle.paper.specs.Words.{word_limit};
ghost use Rattle.paper.specs.Declarations.{module_word_limit};
ghost use Rattle.store_cells.specs.Cells.{cells_of};
ghost use Rattle.code.specs.Cells.{op_at};
ghost use Rattle.check_names.specs.Promises.{store_bytes};
ghost use Rattle.check_names.specs.Scopes.{Stays};
ghost use Rattle.check_constants.specs.Answers.{InNum};
ghost use Rattle.check_datum.specs.Answers.{Begins, Declares, Near};
ghost use Rattle.check_datum.specs.Parts.{scalar_kind, Starts, Initial, DeclaresFree};
ghost use Rattle.check_sites.specs.Parts.{base_of};

use check_names::{Scope, Walked};
use check_sites::{Site, fill, is_taken, known};
use layout::rules::{Breach, Rule};
use layout::{kinds, ops, parts};
use store_writing::{rewrite, sort};

// ---- words

fn scalar_kind(s: u32) -> u32
    ensures { result ≡ scalar_kind s }
{
    if s == text_sorts::CONST {
        return kinds::CONSTANT;
    }
    kinds::VARIABLE
}

fn base_of(own: u32) -> usize
    ensures { result ≡ base_of own }
{
    if own == check_names::OF_ROUTINE {
        return layout::cells::FIRST_WINDOW;
    }
    0
}

// A number of num as a word.
fn word_of(v: i64) -> u32
    requires { InNum v }
    ensures { result ≡ of_z w32 v }
{
    store_numbers::to_word(v as i32)
}

// ---- data

// The words of a datum that begins at word i: so many, with what they start. `own` is the bit of its site, and `held` part of a lent cell.
fn start(
    code: &mut [u8],
    values: &mut [u8],
    own: u32,
    used: u32,
    count: u32,
    word: u32,
    held: u32,
    i: usize,
)
    requires { (i * 8 + 8 ≤ length code.old) × (store_bytes ≤ length values.old) × (used + count ≤ module_word_limit) × (held < 16777216) }
    ensures { Starts code.old values.old code.new values.new own used count word held i }
{
    fill(values, base_of(own) + used as usize, count, word);
    if own == check_names::OF_ROUTINE {
        rewrite(code, i, ops::DATUM + parts::VALUE * held, count as usize, 0);
    }
}

// VAR type name{c};
fn array(scope: Scope, code: &mut [u8], values: &mut [u8], site: Site, i: usize) -> Walked
    requires { Begins code.old values.old site.own site.limit scope.used i × Near code.old values.old site.own site.limit scope.used i × (op_at (cells_of code.old) (i + 3) ≡ open_brace) }
    ensures { DeclaresFree code.old values.old code.new values.new site.own site.limit scope.used i result × Stays scope result }
{
    let used = scope.used;
    let (count, next) = check_constants::size(code, values, i + 4)?;
    if site.limit < used + count {
        return Err(Breach {
            rule: Rule::TooMany,
            word: i + 2,
        });
    }
    let filled = known(
        scope,
        code,
        values,
        i + 2,
        kinds::ARRAY,
        site.own,
        used + parts::SIZE * count,
        count,
    );
    start(code, values, site.own, used, count, 0, parts::BIAS, i);
    Ok((next + 2, filled))
}

// A scalar whose value stands behind the sign `:=`. Where the value is refused, no word is given out.
fn initial(
    scope: Scope,
    code: &mut [u8],
    values: &mut [u8],
    site: Site,
    kind: u32,
    i: usize,
) -> Walked
    requires { Begins code.old values.old site.own site.limit scope.used i × Near code.old values.old site.own site.limit scope.used i × Initial code.old site.limit scope.used kind i }
    ensures { DeclaresFree code.old values.old code.new values.new site.own site.limit scope.used i result × Stays scope result × OnErr result (values.new ≡ values.old) }
{
    let wants = check_names::type_named(sort(code, i + 1));
    let (v, next) = check_constants::constant(code, values, wants, i + 4)?;
    let used = scope.used;
    let filled = known(scope, code, values, i + 2, kind, site.own, used, 1);
    start(
        code,
        values,
        site.own,
        used,
        1,
        word_of(v),
        check_constants::held(v),
        i,
    );
    Ok((next + 1, filled))
}

// VAR type name [:= c]; CONST type name := c;
fn scalar(scope: Scope, code: &mut [u8], values: &mut [u8], site: Site, i: usize) -> Walked
    requires { Begins code.old values.old site.own site.limit scope.used i × Near code.old values.old site.own site.limit scope.used i × (op_at (cells_of code.old) (i + 3) ≡ open_brace → ⊥) }
    ensures { DeclaresFree code.old values.old code.new values.new site.own site.limit scope.used i result × Stays scope result }
{
    let used = scope.used;
    if site.limit <= used {
        return Err(Breach {
            rule: Rule::TooMany,
            word: i + 2,
        });
    }
    let kind = scalar_kind(sort(code, i));
    if sort(code, i + 3) != text_sorts::BECOMES {
        let filled = known(scope, code, values, i + 2, kind, site.own, used, 1);
        start(code, values, site.own, used, 1, 0, parts::BIAS, i);
        return Ok((i + 4, filled));
    }
    initial(scope, code, values, site, kind, i)
}

// A declaration of data, from its first word on, in a site.
pub fn datum(scope: Scope, code: &mut [u8], values: &mut [u8], site: Site, i: usize) -> Walked
    requires { Begins code.old values.old site.own site.limit scope.used i × Near code.old values.old site.own site.limit scope.used i }
    ensures { Declares code.old values.old code.new values.new site.own site.limit scope.used i result × Stays scope result }
{
    if is_taken(code, values, site.own, i + 2) {
        return Err(Breach {
            rule: Rule::TakenName,
            word: i + 2,
        });
    }
    if sort(code, i + 3) == text_sorts::OPEN_BRACE {
        return array(scope, code, values, site, i);
    }
    scalar(scope, code, values, site, i)
}
