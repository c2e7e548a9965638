// The check of statements in lists: what a run has to know of them is written over their words in the code store. Links lead to the next word as it stands in the text; crate links makes
// steps of them. All that check a statement take the text, both stores, the setting and the scope: a struct of these would be no plainer, since the scope is another behind each statement and
// each store is lent by itself.
#![tactic(auto)]

ghost use Rattle.std.specs.Prelude.{◌≡◌, ◌+◌};
ghost use Rattle.paper.specs.Sorts.{IF, FOR, WHILE, TEST};
ghost use Rattle.check_names.specs.Scopes.{EachHasWord, Stays};
ghost use Rattle.check_statements.specs.Answers.{Stands, Stated, Lists, Listed, Begins, Begun};
ghost use Rattle.check_statements.specs.Parts.{Plain, Plainly, Compacts, Compacted, Thens, Thened, Elses, Elsed, Defaults, Defaulted, Chooses, Chosen};

use check_around::Setting;
use check_names::{Scope, Walked};
use layout::ops;
use layout::types::ValueType;
use store_writing::{rewrite, set_link, set_word, sort};
use text_sorts::starts_statement;

// ---- WHILE

#[cycle(cases_default_else_part_for_statement_full_if_if_statement_list_statement_test_statement_while_statement)]
fn while_statement(
    text: &[u8],
    code: &mut [u8],
    values: &mut [u8],
    k: Setting,
    scope: Scope,
    i: usize,
) -> Walked
    requires { Begins WHILE text.now code.old values.old k scope.used i × EachHasWord scope }
    ensures { Begun WHILE text.now code.old values.old code.new values.new k scope.used i result × Stays scope result }
{
    let (_, d) = check_expressions::typed(code, values, false, ValueType::Bool, i + 1)?;
    let (e, n) = list(text, code, values, k, scope, d + 1)?;
    check_compounds::while_end(code, i, d, e);
    Ok((e + 1, n))
}

// ---- FOR

#[cycle(cases_default_else_part_for_statement_full_if_if_statement_list_statement_test_statement_while_statement)]
fn for_statement(
    text: &[u8],
    code: &mut [u8],
    values: &mut [u8],
    k: Setting,
    scope: Scope,
    i: usize,
) -> Walked
    requires { Begins FOR text.now code.old values.old k scope.used i × EachHasWord scope }
    ensures { Begun FOR text.now code.old values.old code.new values.new k scope.used i result × Stays scope result }
{
    let used = scope.used;
    let d = check_compounds::for_head(code, values, used, i)?;
    let inner = scope.enter(code, values, i);
    let (e, n) = list(text, code, values, k, inner, d + 1)?;
    let outer = n.leave(scope, code, values);
    check_compounds::for_end(code, used, i, d, e);
    Ok((e + 1, outer))
}

// ---- IF

// A compact IF at i, whose condition ends before t.
fn compact_if(
    text: &[u8],
    code: &mut [u8],
    values: &[u8],
    k: Setting,
    scope: Scope,
    i: usize,
    t: usize,
) -> Walked
    requires { Compacts text.now code.old values.now k scope.used i t }
    ensures { Compacted text.now code.old values.now code.new k scope.used i t result × Stays scope result }
{
    let n = check_simple::statement(text, code, values, k, t)?;
    set_word(code, i, ops::COMPACT_IF, t as u32, n);
    Ok((n, scope))
}

// ELSE with its list, or ENDIF.
#[cycle(cases_default_else_part_for_statement_full_if_if_statement_list_statement_test_statement_while_statement)]
fn else_part(
    text: &[u8],
    code: &mut [u8],
    values: &mut [u8],
    k: Setting,
    scope: Scope,
    c: usize,
) -> Walked
    requires { Elses text.now code.old values.old k scope.used c × EachHasWord scope }
    ensures { Elsed text.now code.old values.old code.new values.new k scope.used c result × Stays scope result }
{
    if sort(code, c) != text_sorts::ELSE {
        set_word(code, c, ops::PASS, 0, c + 1);
        return Ok((c + 1, scope));
    }
    let (z, n) = list(text, code, values, k, scope, c + 1)?;
    set_word(code, c, ops::PASS, 0, z);
    set_word(code, z, ops::PASS, 0, z + 1);
    Ok((z + 1, n))
}

// A full IF at i, whose first THEN is at `first`. An arm begins with IF or ELSEIF, at c.
#[cycle(cases_default_else_part_for_statement_full_if_if_statement_list_statement_test_statement_while_statement)]
fn full_if(
    text: &[u8],
    code: &mut [u8],
    values: &mut [u8],
    k: Setting,
    scope: Scope,
    i: usize,
    first: usize,
) -> Walked
    requires { Thens text.now code.old values.old k scope.used i first × EachHasWord scope }
    ensures { Thened text.now code.old values.old code.new values.new k scope.used i first result × Stays scope result }
{
    let mut op = ops::IF;
    let mut c = i;
    let mut t = first;
    let mut n = scope;
    // no range counts the arms: each begins where the list before it ends
    loop {
        let (e, u) = list(text, code, values, k, n, t + 1)?;
        check_compounds::arm_end(code, op, c, t, e);
        if sort(code, e) != text_sorts::ELSEIF {
            let (z, v) = else_part(text, code, values, k, u, e)?;
            set_link(code, i, z);
            return Ok((z, v));
        }
        let (_, m) = check_expressions::typed(code, values, false, ValueType::Bool, e + 1)?;
        op = ops::ELSE_IF;
        c = e;
        t = m;
        n = u;
    }
}

#[cycle(cases_default_else_part_for_statement_full_if_if_statement_list_statement_test_statement_while_statement)]
fn if_statement(
    text: &[u8],
    code: &mut [u8],
    values: &mut [u8],
    k: Setting,
    scope: Scope,
    i: usize,
) -> Walked
    requires { Begins IF text.now code.old values.old k scope.used i × EachHasWord scope }
    ensures { Begun IF text.now code.old values.old code.new values.new k scope.used i result × Stays scope result }
{
    let (_, t) = check_expressions::typed(code, values, false, ValueType::Bool, i + 1)?;
    if sort(code, t) != text_sorts::THEN {
        return compact_if(text, code, values, k, scope, i, t);
    }
    full_if(text, code, values, k, scope, i, t)
}

// ---- TEST

// DEFAULT with its list, or ENDTEST.
#[cycle(cases_default_else_part_for_statement_full_if_if_statement_list_statement_test_statement_while_statement)]
fn default(
    text: &[u8],
    code: &mut [u8],
    values: &mut [u8],
    k: Setting,
    scope: Scope,
    c: usize,
) -> Walked
    requires { Defaults text.now code.old values.old k scope.used c × EachHasWord scope }
    ensures { Defaulted text.now code.old values.old code.new values.new k scope.used c result × Stays scope result }
{
    if sort(code, c) != text_sorts::DEFAULT {
        rewrite(code, c, ops::OTHERWISE, c + 1, c + 1);
        return Ok((c + 1, scope));
    }
    let (z, n) = list(text, code, values, k, scope, c + 2)?;
    rewrite(code, c, ops::OTHERWISE, c + 2, z);
    set_word(code, z, ops::PASS, 0, z + 1);
    Ok((z + 1, n))
}

// The cases of a TEST, from the first CASE, DEFAULT or ENDTEST on.
#[cycle(cases_default_else_part_for_statement_full_if_if_statement_list_statement_test_statement_while_statement)]
fn cases(
    text: &[u8],
    code: &mut [u8],
    values: &mut [u8],
    k: Setting,
    scope: Scope,
    first: usize,
) -> Walked
    requires { Chooses text.now code.old values.old k scope.used first × EachHasWord scope }
    ensures { Chosen text.now code.old values.old code.new values.new k scope.used first result × Stays scope result }
{
    let mut c = first;
    let mut n = scope;
    // no range counts the cases: each begins where the list before it ends
    loop {
        if sort(code, c) != text_sorts::CASE {
            return default(text, code, values, k, n, c);
        }
        let colon = check_compounds::case_values(code, values, c)?;
        let (e, u) = list(text, code, values, k, n, colon + 1)?;
        // where a list goes on that ends at this CASE is found behind it
        set_word(code, c + 1, ops::PASS, 0, e);
        check_compounds::link_values(code, c, colon, e);
        c = e;
        n = u;
    }
}

#[cycle(cases_default_else_part_for_statement_full_if_if_statement_list_statement_test_statement_while_statement)]
fn test_statement(
    text: &[u8],
    code: &mut [u8],
    values: &mut [u8],
    k: Setting,
    scope: Scope,
    i: usize,
) -> Walked
    requires { Begins TEST text.now code.old values.old k scope.used i × EachHasWord scope }
    ensures { Begun TEST text.now code.old values.old code.new values.new k scope.used i result × Stays scope result }
{
    let (_, c) = check_expressions::typed(code, values, false, ValueType::Num, i + 1)?;
    let (z, n) = cases(text, code, values, k, scope, c)?;
    set_word(code, i, ops::TEST, c as u32, z);
    Ok((z, n))
}

// ---- statements

fn simple_statement(
    text: &[u8],
    code: &mut [u8],
    values: &[u8],
    k: Setting,
    scope: Scope,
    i: usize,
) -> Walked
    requires { Plain text.now code.old values.now k scope.used i }
    ensures { Plainly text.now code.old values.now code.new k scope.used i result × Stays scope result }
{
    let n = check_simple::statement(text, code, values, k, i)?;
    Ok((n, scope))
}

#[cycle(cases_default_else_part_for_statement_full_if_if_statement_list_statement_test_statement_while_statement)]
fn statement(
    text: &[u8],
    code: &mut [u8],
    values: &mut [u8],
    k: Setting,
    scope: Scope,
    i: usize,
) -> Walked
    requires { Stands text.now code.old values.old k scope.used i × EachHasWord scope }
    ensures { Stated text.now code.old values.old code.new values.new k scope.used i result × Stays scope result }
{
    match sort(code, i) {
        text_sorts::IF => if_statement(text, code, values, k, scope, i),
        text_sorts::FOR => for_statement(text, code, values, k, scope, i),
        text_sorts::WHILE => while_statement(text, code, values, k, scope, i),
        text_sorts::TEST => test_statement(text, code, values, k, scope, i),
        _ => simple_statement(text, code, values, k, scope, i),
    }
}

// A list, up to the word that closes it.
#[cycle(cases_default_else_part_for_statement_full_if_if_statement_list_statement_test_statement_while_statement)]
pub fn list(
    text: &[u8],
    code: &mut [u8],
    values: &mut [u8],
    k: Setting,
    scope: Scope,
    at: usize,
) -> Walked
    requires { Lists text.now code.old values.old k scope.used at × EachHasWord scope }
    ensures { Listed text.now code.old values.old code.new values.new k scope.used at result × Stays scope result }
{
    let mut i = at;
    let mut n = scope;
    // no range counts the statements: each begins where the one before it ends
    while starts_statement(sort(code, i)) {
        let (m, u) = statement(text, code, values, k, n, i)?;
        i = m;
        n = u;
    }
    Ok((i, n))
}
