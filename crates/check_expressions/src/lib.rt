// The check of an expression: names, types and links, by precedence climbing over the words of the code store in place.
// Both stores are lent one by one: check_statements says why.
#![tactic(auto)]

ghost use Rattle.std.specs.Prelude.{◌≡◌, ◌+◌, ◌-◌, ◌*◌, ◌<◌, ◌≤◌, length, MatchOption};
ghost use Rattle.paper.specs.Expressions.{disjunctions, level_of};
ghost use Rattle.paper.specs.Words.{word_limit};
ghost use Rattle.store_cells.specs.Cells.{cells_of};
ghost use Rattle.code.specs.Cells.{head_at, op_at};
ghost use Rattle.code.specs.Spans.{a_call_slot};
ghost use Rattle.layout.specs.Parts.{link_part};
ghost use Rattle.climb.specs.Rise.{height};
ghost use Rattle.check_expressions.specs.Answers.{StandsUnder, CheckedUnder, Stands, Checked, OfType, Typed};
ghost use Rattle.check_expressions.specs.Parts.{Asks, Numbered, Prefixes, SignType, Gives, Tied, Meant, BreaksAlone, BreaksIndexed, Alone, SmallNumber, Literal, Short, Nested, Signed, Indexed, Right, Joined, Begins, Began};

use layout::limits::NESTINGS;
use layout::rules::{Breach, Rule};
use layout::types::{Type, ValueType};
use layout::{kinds, levels, ops, parts};
use store_writing::{set_head, set_word, sort};

// What the check of an expression answers: its type, and the word after it; or the rule broken, and its word.
pub type Judged = Result<(ValueType, usize), Breach>;

// ---- operators

// The number by which a word's op names an operator, as the cells of the code store have it. XOR is the last that is left.
fn number_of(s: u32) -> u32
    requires { 0 < level_of s }
    ensures { Numbered s result }
{
    match s {
        text_sorts::PLUS => 0,
        text_sorts::MINUS_SIGN => 1,
        text_sorts::TIMES => 2,
        text_sorts::DIV => 3,
        text_sorts::MOD => 4,
        text_sorts::LESS => 5,
        text_sorts::LESS_EQUAL => 6,
        text_sorts::GREATER => 7,
        text_sorts::GREATER_EQUAL => 8,
        text_sorts::EQUAL => 9,
        text_sorts::UNEQUAL => 10,
        text_sorts::AND => 12,
        text_sorts::OR => 13,
        _ => 11,
    }
}

// The type that an operator of level l asks of both sides, where the left one's type is this.
fn asked(s: u32, l: u32, left: ValueType) -> ValueType
    requires { l ≡ level_of s }
    ensures { Asks s left result }
{
    match s {
        text_sorts::EQUAL | text_sorts::UNEQUAL => left,
        _ if levels::RELATIONS < l => ValueType::Bool,
        _ => ValueType::Num,
    }
}

// The type of what an operator of level l gives.
fn given(l: u32) -> ValueType
    ensures { Gives l result }
{
    if l < levels::RELATIONS {
        ValueType::Num
    } else {
        ValueType::Bool
    }
}

// The level of what NOT or a sign covers.
#[tactic(auto, unfolding(climb::specs::Rise::height))]
fn covered(s: u32) -> Option<u32>
    ensures { MatchOption result (height s - 1 ≡ 0) (λ l. (l ≡ height s - 1) × (0 < l)) }
{
    match s {
        text_sorts::NOT => Some(levels::CONJUNCTIONS),
        text_sorts::PLUS | text_sorts::MINUS_SIGN => Some(levels::PRODUCTS),
        _ => None,
    }
}

fn prefix_of(s: u32) -> u32
    ensures { Prefixes s result }
{
    match s {
        text_sorts::NOT => ops::NOT,
        text_sorts::MINUS_SIGN => ops::MINUS,
        _ => ops::PLUS,
    }
}

// The type that NOT or a sign asks for, and gives.
fn sign_type(s: u32) -> ValueType
    ensures { SignType s result }
{
    if s == text_sorts::NOT {
        ValueType::Bool
    } else {
        ValueType::Num
    }
}

// ---- operands of one word

// The rule that a name of this kind breaks where it stands alone.
fn breaks_alone(kind: u32, only: bool) -> Option<Rule>
    ensures { BreaksAlone kind only result }
{
    match kind {
        kinds::CONSTANT | kinds::ERROR_NUMBER => None,
        kinds::VARIABLE | kinds::LOOP | kinds::ERRNO if !only => None,
        kinds::VARIABLE..=kinds::ERROR_NUMBER => Some(Rule::WrongKind),
        _ => Some(Rule::UnknownName),
    }
}

// A name alone, of which the table says m.
fn plain(code: &mut [u8], m: u32, only: bool, at: usize) -> Judged
    requires { (at * 8 + 8 ≤ length code.old) × Meant m }
    ensures { Alone code.old code.new m only at result }
{
    let kind = check_names::kind_of(m);
    if let Some(rule) = breaks_alone(kind, only) {
        return Err(Breach { rule, word: at });
    }
    let value = check_names::value_of(m);
    match kind {
        kinds::ERRNO => {
            set_head(code, at, ops::MODULE_SLOT, layout::cells::ERRNO_VALUE);
            Ok((ValueType::Num, at + 1))
        }
        kinds::ERROR_NUMBER => {
            set_head(code, at, ops::LITERAL, value + parts::BIAS);
            Ok((ValueType::Num, at + 1))
        }
        _ => {
            set_head(code, at, ops::MODULE_SLOT + check_names::own_of(m), value);
            let t = if kind == kinds::LOOP {
                ValueType::Num
            } else {
                check_names::type_of(m)
            };
            Ok((t, at + 1))
        }
    }
}

fn literal(code: &mut [u8], at: usize) -> Judged
    requires { (at * 8 + 8 ≤ length code.old) × SmallNumber (head_at (cells_of code.old) at) }
    ensures { Literal code.old code.new at result }
{
    let w = store_reading::head(code, at);
    let (t, value) = match w % parts::VALUE {
        text_sorts::NUMBER => (ValueType::Num, w / parts::VALUE),
        text_sorts::TRUE => (ValueType::Bool, 1),
        _ => (ValueType::Bool, 0),
    };
    set_head(code, at, ops::LITERAL, value + parts::BIAS);
    Ok((t, at + 1))
}

// ---- operands of several words, by the answer of what stands inside

fn nested(code: &mut [u8], inner: Judged, at: usize) -> Judged
    requires { (at * 8 + 8 ≤ length code.old) × Short inner }
    ensures { Nested code.old code.new inner at result }
{
    let (t, end) = inner?;
    set_word(code, at, ops::PARENTHESIS, 0, end);
    Ok((t, end + 1))
}

// NOT or a sign, by its sort.
fn signed(code: &mut [u8], s: u32, inner: Judged, at: usize) -> Judged
    requires { (at * 8 + 8 ≤ length code.old) × (at < word_limit) × Short inner }
    ensures { Signed code.old code.new s inner at result }
{
    let (t, end) = inner?;
    if t != sign_type(s) {
        return Err(Breach {
            rule: Rule::WrongType,
            word: at + 1,
        });
    }
    set_word(code, at, prefix_of(s), 0, end);
    Ok((t, end))
}

// The rule that a name of this kind breaks before an index.
fn breaks_indexed(kind: u32, only: bool) -> Option<Rule>
    ensures { BreaksIndexed kind only result }
{
    match kind {
        kinds::ARRAY if !only => None,
        kinds::VARIABLE..=kinds::ERROR_NUMBER => Some(Rule::WrongKind),
        _ => Some(Rule::UnknownName),
    }
}

// An array, of which the table says m, and its index.
fn indexed(code: &mut [u8], m: u32, inner: Judged, at: usize) -> Judged
    requires { (at * 8 + 8 ≤ length code.old) × (at < word_limit) × Short inner }
    ensures { Indexed code.old code.new m inner at result }
{
    let (t, end) = inner?;
    if t != ValueType::Num {
        return Err(Breach {
            rule: Rule::WrongType,
            word: at + 2,
        });
    }
    set_word(
        code,
        at,
        ops::MODULE_ELEMENT + check_names::own_of(m),
        check_names::value_of(m),
        end,
    );
    Ok((check_names::type_of(m), end + 1))
}

// ---- an operator and its two sides

// The operator at i has its right side up to n. One word there is an operand that the operator takes over.
fn tie(code: &mut [u8], s: u32, i: usize, n: usize)
    requires { (i * 8 + 16 ≤ length code.old) × (n < link_part) × (0 < level_of s) × (n ≡ i + 2 → op_at (cells_of code.old) (i + 1) ≤ a_call_slot) }
    ensures { Tied code.old code.new s i n }
{
    let op = ops::OPERATOR + number_of(s);
    if n == i + 2 {
        let w = store_reading::head(code, i + 1);
        set_head(code, i, op + 16 * (w % parts::VALUE), w / parts::VALUE);
    } else {
        set_word(code, i, op, 0, n);
    }
}

// The operator at i, of level l, asks for this type, which its left side has.
fn join(code: &mut [u8], s: u32, l: u32, wants: ValueType, right: Judged, i: usize) -> Judged
    requires { Right code.old s l i right }
    ensures { Joined code.old code.new s wants i right result }
{
    let (t, end) = right?;
    if t != wants {
        return Err(Breach {
            rule: Rule::WrongType,
            word: i + 1,
        });
    }
    tie(code, s, i, end);
    Ok((given(l), end))
}

// ---- expressions

// The check calls itself on the inner expression: the words left fall at each call, and how many parentheses and braces may still nest falls with them.

// The first part of an expression: an operand, or NOT or a sign with what it covers.
#[cycle(begin_climb)]
fn begin(code: &mut [u8], values: &[u8], only: bool, at: usize, nesting: usize) -> Judged
    requires { Begins nesting code.old values.now at }
    ensures { Began nesting code.old values.now code.new only at result }
{
    let s = sort(code, at);
    if s == text_sorts::NAME {
        let m = check_names::meaning(code, values, at);
        if sort(code, at + 1) != text_sorts::OPEN_BRACE {
            return plain(code, m, only, at);
        }
        if let Some(rule) = breaks_indexed(check_names::kind_of(m), only) {
            return Err(Breach { rule, word: at });
        }
        let index = climb(
            code,
            values,
            only,
            levels::DISJUNCTIONS,
            at + 2,
            nesting - 1,
        );
        return indexed(code, m, index, at);
    }
    if s == text_sorts::OPEN_PAREN {
        let inner = climb(
            code,
            values,
            only,
            levels::DISJUNCTIONS,
            at + 1,
            nesting - 1,
        );
        return nested(code, inner, at);
    }
    if let Some(l) = covered(s) {
        let part = climb(code, values, only, l, at + 1, nesting);
        return signed(code, s, part, at);
    }
    literal(code, at)
}

// An expression of operators up to a level.
#[cycle(begin_climb)]
fn climb(
    code: &mut [u8],
    values: &[u8],
    only: bool,
    level: u32,
    at: usize,
    nesting: usize,
) -> Judged
    requires { StandsUnder nesting code.old values.now level at }
    ensures { CheckedUnder nesting code.old values.now code.new only level at result }
{
    let (mut t, mut i) = begin(code, values, only, at, nesting)?;
    loop {
        let s = sort(code, i);
        let l = text_sorts::level_of(s);
        if l == levels::NONE || level < l {
            return Ok((t, i));
        }
        let wants = asked(s, l, t);
        if t != wants {
            return Err(Breach {
                rule: Rule::WrongType,
                word: at,
            });
        }
        let right = climb(code, values, only, l - 1, i + 1, nesting);
        (t, i) = join(code, s, l, wants, right, i)?;
    }
}

// The same of a whole expression, which nests as deep as any.
pub fn expression(code: &mut [u8], values: &[u8], only: bool, level: u32, at: usize) -> Judged
    requires { Stands code.old values.now level at }
    ensures { Checked code.old values.now code.new only level at result }
{
    climb(code, values, only, level, at, NESTINGS)
}

// An expression of the type that a number says; one of another type, or of a number that says none, breaks rule 13.
pub fn of_type(code: &mut [u8], values: &[u8], only: bool, wants: Type, at: usize) -> Judged
    requires { Stands code.old values.now disjunctions at }
    ensures { OfType code.old values.now code.new only wants at result }
{
    let (t, end) = expression(code, values, only, levels::DISJUNCTIONS, at)?;
    if t.number() != wants {
        return Err(Breach {
            rule: Rule::WrongType,
            word: at,
        });
    }
    Ok((t, end))
}

// An expression of a type.
pub fn typed(code: &mut [u8], values: &[u8], only: bool, wants: ValueType, at: usize) -> Judged
    requires { Stands code.old values.now disjunctions at }
    ensures { Typed code.old values.now code.new only wants at result }
{
    of_type(code, values, only, wants.number(), at)
}
