// The check of a simple statement: its names, its types, its place, and what a run has to know of it, written over its words in the code store.
// Both stores are lent one by one: check_statements says why.
#![tactic(auto)]

ghost use Rattle.std.specs.Prelude.{◌≡◌, ◌+◌, ◌*◌, ◌/◌, ◌%◌, ◌<◌, ◌≤◌, length};
ghost use Rattle.paper.specs.Sorts.{NAME, RETURN, RAISE, TPWRITE, TPREADNUM};
ghost use Rattle.paper.specs.Words.{word_limit};
ghost use Rattle.paper.specs.Expressions.{disjunctions};
ghost use Rattle.store_cells.specs.Cells.{cells_of};
ghost use Rattle.code.specs.Cells.{head_at, op_at, value_at, place_at, link_at};
ghost use Rattle.code.specs.Signatures.{first_parameter};
ghost use Rattle.layout.specs.Parts.{value_part, link_part, characters_part};
ghost use Rattle.check_expressions.specs.Answers as expressions;
ghost use Rattle.check_simple.specs.Answers.{Statement, Stated};
ghost use Rattle.check_simple.specs.Parts.{BeginsIn, BegunIn, BeginsOf, BegunOf, Assigns, Assigned, CallsOf, CalledOf, WrongName, TypeDiffers, IsCall};
ghost use Rattle.check_simple.specs.Parts.{Targets, TargetJudged, Elements, ElementJudged, ValueSide, ValueAssigned, Callees, CalleeTold, Passed, More, MoreJudged, Counts, Counted, CallSide, CallJudged, ForCalls, ForJudged, CallAssigns, CallAssigned, Alone, Values, Valued, Characters, Strings, Spelled};

use check_around::lists::WhichList;
use check_around::{Setting, Stepped};
use check_expressions::Judged;
use layout::rules::{Breach, Rule};
use layout::types::ValueType;
use layout::{kinds, levels, ops, parts};
use store_writing::{set_head, set_link, set_word, sort};

// so much higher is the op of a target that a call's result goes to
const FOR_A_CALL: u32 = ops::CALL_TARGET - ops::TARGET;

// what a string's characters are multiplied by, as its bytes are counted
const CHARACTERS: usize = parts::CHARACTERS as usize;

// ---- names and types

// The rule that a name of this kind breaks where another is asked for.
fn wrong_name(kind: u32) -> Rule
    ensures { WrongName kind result }
{
    match kind {
        1..=kinds::ERROR_NUMBER => Rule::WrongKind,
        _ => Rule::UnknownName,
    }
}

// Whether the type that a head says, if it is asked, is not this one.
fn differs(w: u32, t: ValueType) -> bool
    ensures { TypeDiffers w t result }
{
    w / parts::VALUE == 0 && check_names::type_named(w % parts::VALUE) != t
}

// ---- targets

// A target: its type, and the word after it.
fn target(code: &mut [u8], values: &[u8], at: usize) -> Judged
    requires { Targets code.old values.now at }
    ensures { TargetJudged code.old values.now code.new at result }
{
    let m = check_names::meaning(code, values, at);
    if sort(code, at + 1) == text_sorts::OPEN_BRACE {
        return element_target(code, values, m, at);
    }
    let kind = check_names::kind_of(m);
    if kind != kinds::VARIABLE {
        return Err(Breach {
            rule: wrong_name(kind),
            word: at,
        });
    }
    set_head(
        code,
        at,
        ops::TARGET + check_names::own_of(m),
        check_names::value_of(m),
    );
    Ok((check_names::type_of(m), at + 1))
}

// An element, of whose array the table says m.
fn element_target(code: &mut [u8], values: &[u8], m: u32, at: usize) -> Judged
    requires { Elements code.old values.now m at }
    ensures { ElementJudged code.old values.now code.new m at result }
{
    let kind = check_names::kind_of(m);
    if kind != kinds::ARRAY {
        return Err(Breach {
            rule: wrong_name(kind),
            word: at,
        });
    }
    let (_, end) = check_expressions::typed(code, values, false, ValueType::Num, at + 2)?;
    set_head(
        code,
        at,
        ops::TARGET + 2 + check_names::own_of(m),
        check_names::value_of(m),
    );
    set_link(code, at + 1, end);
    Ok((check_names::type_of(m), end + 1))
}

// ---- calls

// The word that the routine begins with whose name stands where a function, or a procedure, is to be called.
fn callee_at<'a>(
    code: &'a [u8],
    values: &'a [u8],
    function: bool,
    i: usize,
) -> Result<usize, Breach>
    requires { Callees code.now values.now i }
    ensures { CalleeTold code.now values.now function i result }
{
    let m = check_names::meaning(code, values, i);
    let kind = check_names::kind_of(m);
    if kind != kinds::ROUTINE {
        return Err(Breach {
            rule: wrong_name(kind),
            word: i,
        });
    }
    let h = check_names::value_of(m) as usize;
    let is_function = sort(code, h) == text_sorts::FUNC;
    if is_function != function {
        return Err(Breach {
            rule: Rule::WrongKind,
            word: i,
        });
    }
    Ok(h)
}

// How many arguments stand from a word on: each comma up to the semicolon is between two of them.
fn count_arguments(code: &[u8], first: usize, closing: u32) -> u32
    requires { Counts code.now first closing }
    ensures { Counted code.now first closing result }
{
    if sort(code, first) == closing {
        return 0;
    }
    let mut i = first;
    let mut count = 1;
    // No `for`: words are no items of a slice, each is read at its place in the store, and nothing but the semicolon says where they end.
    loop {
        let s = sort(code, i);
        if s == text_sorts::SEMICOLON {
            return count;
        }
        count += u32::from(s == text_sorts::COMMA);
        i += 1;
    }
}

// An argument for the parameter whose type is at word p.
fn argument(code: &mut [u8], values: &[u8], p: usize, at: usize) -> Judged
    requires { (p * 8 + 8 ≤ length code.old) × expressions.Stands code.old values.now disjunctions at }
    ensures { Passed code.old values.now code.new p at result }
{
    let asked = store_reading::head(code, p);
    let (t, end) = check_expressions::expression(code, values, false, levels::DISJUNCTIONS, at)?;
    if differs(asked, t) {
        return Err(Breach {
            rule: Rule::WrongType,
            word: at,
        });
    }
    Ok((t, end))
}

// The arguments behind the one that ends at b, whose parameter's type is at word p: up to the word that closes them.
fn more_arguments(code: &mut [u8], values: &[u8], p: usize, b: usize) -> Stepped
    requires { More code.old values.now p b }
    ensures { MoreJudged code.old values.now code.new p b result }
{
    let mut parameter = p;
    let mut end = b;
    // No `for`: where the next comma is, the argument before it tells.
    while sort(code, end) == text_sorts::COMMA {
        parameter += 3;
        let (_, n) = argument(code, values, parameter, end + 1)?;
        set_word(code, end, ops::NEXT_ARGUMENT, 0, n);
        end = n;
    }
    Ok(end)
}

fn first_parameter(code: &[u8], h: usize) -> usize
    requires { (h * 8 + 8 ≤ length code.now) × (h < word_limit) }
    ensures { result ≡ first_parameter (cells_of code.now) h }
{
    if sort(code, h) == text_sorts::FUNC {
        h + 4
    } else {
        h + 3
    }
}

// A call of the routine that begins at h, which is barred in an UNDO list. The callee's word gets this op, and leads to the end of its first argument.
fn call(
    code: &mut [u8],
    values: &[u8],
    undo: bool,
    op: u32,
    h: usize,
    callee: usize,
    first: usize,
    closing: u32,
) -> Stepped
    requires { CallSide code.old values.now undo h callee first closing × (op < value_part) }
    ensures { CallJudged code.old values.now code.new undo op h callee first closing result }
{
    let count = count_arguments(code, first, closing);
    if count != store_reading::head(code, h) / parts::VALUE {
        return Err(Breach {
            rule: Rule::WrongCount,
            word: callee,
        });
    }
    if undo {
        return Err(Breach {
            rule: Rule::Barred,
            word: callee,
        });
    }
    if count == 0 {
        set_word(code, callee, op, h as u32, first);
        return Ok(first);
    }
    let p = first_parameter(code, h);
    let (_, end) = argument(code, values, p, first)?;
    set_word(code, callee, op, h as u32, end);
    more_arguments(code, values, p, end)
}

// The right side of an assignment to a target of a type: up to the parenthesis that closes.
fn call_for(code: &mut [u8], values: &[u8], undo: bool, wants: ValueType, i: usize) -> Stepped
    requires { ForCalls code.old values.now undo i }
    ensures { ForJudged code.old values.now code.new undo wants i result }
{
    let h = callee_at(code, values, true, i)?;
    if differs(store_reading::head(code, h + 1), wants) {
        return Err(Breach {
            rule: Rule::WrongType,
            word: i,
        });
    }
    call(
        code,
        values,
        undo,
        text_sorts::NAME,
        h,
        i,
        i + 2,
        text_sorts::CLOSE_PAREN,
    )
}

// A procedure call goes on by its semicolon.
fn call_of(code: &mut [u8], values: &[u8], undo: bool, i: usize) -> Stepped
    requires { CallsOf code.old values.now undo i }
    ensures { CalledOf code.old values.now code.new undo i result }
{
    let h = callee_at(code, values, false, i)?;
    let end = call(
        code,
        values,
        undo,
        ops::PROCEDURE_CALL,
        h,
        i,
        i + 1,
        text_sorts::SEMICOLON,
    )?;
    set_word(code, end, ops::CLOSE, 0, end + 1);
    Ok(end + 1)
}

// ---- assignments: the target at i ends before b

fn assign_value(code: &mut [u8], values: &[u8], wants: ValueType, i: usize, b: usize) -> Stepped
    requires { ValueSide code.old values.now wants i b }
    ensures { ValueAssigned code.old values.now code.new wants i b result }
{
    let (_, end) = check_expressions::typed(code, values, false, wants, b + 1)?;
    set_link(code, b, end);
    set_link(code, i, end + 1);
    Ok(end + 1)
}

fn assign_call(
    code: &mut [u8],
    values: &[u8],
    undo: bool,
    wants: ValueType,
    i: usize,
    b: usize,
) -> Stepped
    requires { CallAssigns code.old values.now undo i b }
    ensures { CallAssigned code.old values.now code.new undo wants i b result }
{
    let end = call_for(code, values, undo, wants, b + 1)?;
    let w = store_reading::head(code, i);
    set_word(
        code,
        i,
        w % parts::VALUE + FOR_A_CALL,
        w / parts::VALUE,
        end + 2,
    );
    Ok(end + 2)
}

// Whether a name with a parenthesis behind it stands at a word.
fn is_call(code: &[u8], at: usize) -> bool
    requires { at * 8 + 16 ≤ length code.now }
    ensures { IsCall (cells_of code.now) at result }
{
    sort(code, at) == text_sorts::NAME && sort(code, at + 1) == text_sorts::OPEN_PAREN
}

fn assignment(code: &mut [u8], values: &[u8], undo: bool, i: usize) -> Stepped
    requires { Assigns code.old values.now undo i }
    ensures { Assigned code.old values.now code.new undo i result }
{
    let (t, b) = target(code, values, i)?;
    if is_call(code, b + 1) {
        return assign_call(code, values, undo, t, i, b);
    }
    assign_value(code, values, t, i, b)
}

fn started_by_name(code: &mut [u8], values: &[u8], k: Setting, i: usize) -> Stepped
    requires { BeginsIn NAME k code.old values.now i }
    ensures { BegunIn NAME k code.old values.now code.new i result }
{
    let undo = k.list == WhichList::Undo;
    match sort(code, i + 1) {
        text_sorts::BECOMES | text_sorts::OPEN_BRACE => assignment(code, values, undo, i),
        _ => call_of(code, values, undo, i),
    }
}

// ---- other statements

// A statement that is one word, and may stand here or not.
fn word(code: &mut [u8], op: u32, fine: bool, i: usize) -> Stepped
    requires { (i * 8 + 8 ≤ length code.old) × (op < value_part) × (i < word_limit) }
    ensures { Alone code.old code.new op fine i result }
{
    if !fine {
        return Err(Breach {
            rule: Rule::Barred,
            word: i,
        });
    }
    set_word(code, i, op, 0, i + 2);
    Ok(i + 2)
}

// A statement with an expression of a type, which stands from a word on.
fn with_value(
    code: &mut [u8],
    values: &[u8],
    op: u32,
    wants: ValueType,
    from: usize,
    i: usize,
) -> Stepped
    requires { Values code.old values.now from i × (op < value_part) }
    ensures { Valued code.old values.now code.new op wants from i result }
{
    let (_, end) = check_expressions::typed(code, values, false, wants, from)?;
    set_word(code, i, op, end as u32, end + 1);
    Ok(end + 1)
}

fn returns(code: &mut [u8], values: &[u8], k: Setting, i: usize) -> Stepped
    requires { BeginsIn RETURN k code.old values.now i }
    ensures { BegunIn RETURN k code.old values.now code.new i result }
{
    if k.list == WhichList::Undo {
        return Err(Breach {
            rule: Rule::Barred,
            word: i,
        });
    }
    if sort(code, i + 1) == text_sorts::SEMICOLON {
        return word(code, ops::RETURN, k.result.is_none(), i);
    }
    match k.result {
        Some(result) => with_value(code, values, ops::RETURN_OF, result, i + 1, i),
        None => Err(Breach {
            rule: Rule::Barred,
            word: i,
        }),
    }
}

fn raises(code: &mut [u8], values: &[u8], k: Setting, i: usize) -> Stepped
    requires { BeginsIn RAISE k code.old values.now i }
    ensures { BegunIn RAISE k code.old values.now code.new i result }
{
    let list = k.list;
    if sort(code, i + 1) == text_sorts::SEMICOLON {
        return word(code, ops::RAISE, list == WhichList::Handler, i);
    }
    if list != WhichList::Body {
        return Err(Breach {
            rule: Rule::Barred,
            word: i,
        });
    }
    with_value(code, values, ops::RAISE_OF, ValueType::Num, i + 1, i)
}

// ---- strings

// How many characters these bytes are.
fn characters(bytes: &[u8]) -> usize
    ensures { Characters bytes.now result }
{
    let mut k = 0;
    let mut count = 0;
    // No `for`: a step is as wide as its character.
    while k < bytes.len() {
        k += parts::width(bytes[k]);
        count += 1;
    }
    count
}

// The value of a string's word is how many bytes it has, quotes included. Its characters are counted above them.
fn string(text: &[u8], code: &mut [u8], i: usize)
    requires { Strings text.now code.old i }
    ensures { Spelled text.now code.old code.new i }
{
    let bytes = store_reading::value(code, i);
    let first = store_reading::place(code, i) + 1;
    let count = characters(&text[first..first + bytes - 2]);
    set_head(
        code,
        i,
        text_sorts::STRING,
        (bytes + CHARACTERS * count) as u32,
    );
}

fn writes(text: &[u8], code: &mut [u8], values: &[u8], i: usize) -> Stepped
    requires { BeginsOf TPWRITE text.now code.old values.now i }
    ensures { BegunOf TPWRITE text.now code.old values.now code.new i result }
{
    string(text, code, i + 1);
    if sort(code, i + 2) == text_sorts::BACKSLASH {
        return with_value(code, values, ops::WRITE_OF, ValueType::Num, i + 5, i);
    }
    set_word(code, i, ops::WRITE, 0, i + 3);
    Ok(i + 3)
}

fn reads(text: &[u8], code: &mut [u8], values: &[u8], i: usize) -> Stepped
    requires { BeginsOf TPREADNUM text.now code.old values.now i }
    ensures { BegunOf TPREADNUM text.now code.old values.now code.new i result }
{
    let (t, b) = target(code, values, i + 1)?;
    if t != ValueType::Num {
        return Err(Breach {
            rule: Rule::WrongType,
            word: i + 1,
        });
    }
    string(text, code, b + 1);
    set_word(code, i, ops::READ, (b + 1) as u32, b + 3);
    Ok(b + 3)
}

// A simple statement: the word after its semicolon.
pub fn statement(text: &[u8], code: &mut [u8], values: &[u8], k: Setting, i: usize) -> Stepped
    requires { Statement text.now code.old values.now k i }
    ensures { Stated text.now code.old values.now code.new k i result }
{
    let s = sort(code, i);
    let list = k.list;
    match s {
        text_sorts::NAME => started_by_name(code, values, k, i),
        text_sorts::RETURN => returns(code, values, k, i),
        text_sorts::RAISE => raises(code, values, k, i),
        text_sorts::EXIT => word(code, ops::EXIT, list != WhichList::Undo, i),
        text_sorts::RETRY => word(code, ops::RETRY, list == WhichList::Handler, i),
        text_sorts::TRYNEXT => word(code, ops::TRY_NEXT, list == WhichList::Handler, i),
        text_sorts::TPWRITE => writes(text, code, values, i),
        _ => reads(text, code, values, i),
    }
}
