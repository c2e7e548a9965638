// What an expression is worth, worked out from the linked words of the code store in place.
// Ops and operators are matched as the numbers that stand in the cells: an enum would have to be decoded at each word, and the cells hold numbers still.
#![tactic(auto)]

ghost use Rattle.std.specs.Prelude.{◌≡◌, true, ◌+◌, ◌<◌, pos};
ghost use Rattle.std.specs.Int.Signed.{lt_z, quot_z, rem_z};
ghost use Rattle.std.specs.Int.{w32};
ghost use Rattle.std.proofs.Common.{SFits};
ghost use Rattle.paper.specs.Numbers.{value, error, is_zero, same};
ghost use Rattle.paper.specs.Terms.{truth, applied, known};
ghost use Rattle.code.specs.Spans.{right_in, prefix_in, operator_of};
ghost use Rattle.store_evaluation.specs.Answers.{first_error, decoded, Small, Gives, Stores, StandsUnder, EvaluatedUnder, Stands, Evaluated};
ghost use Rattle.store_evaluation.specs.Parts.{joined, and_number, or_number, failure_of, failing, Worked, Divided, addresses, Leaf, Read, cell_of, opens_at, ends_at, nests_in, Nests, Fused, Array, Indexed, Closes, Closed, Shorts, Encloses, Entered, Skips, Follows, Followed};
ghost use Rattle.store_evaluation.specs.Parts as parts;

use layout::answers::FIRST_ERROR;
use layout::limits::NESTINGS;
use layout::{ops, parts};
use store_numbers::{HIGHEST_NUM, LOWEST_NUM};
use store_reading::{head, link, load};

mod carried;

// ---- numbers

// a number past the ends of num. DIV and MOD by 0 give it, and no Option: as with any other result, one test whether it is in num tells that there is none.
const BEYOND: i64 = HIGHEST_NUM + 1;

// answers that are errors: a number as layout::answers says, where a Result would be slower
pub const OVERFLOW: i64 = FIRST_ERROR + store_numbers::ERR_OVERFLOW as i64;

const DIV_ZERO: i64 = FIRST_ERROR + store_numbers::ERR_DIVZERO as i64;

pub const OUT_OF_BOUND: i64 = FIRST_ERROR + store_numbers::ERR_OUTOFBND as i64;

fn is_zero(a: i64) -> bool
    ensures { result ≡ is_zero a }
{
    a == 0
}

fn is_same(a: i64, b: i64) -> bool
    ensures { result ≡ same a b }
{
    a == b
}

fn is_less(a: i64, b: i64) -> bool
    ensures { result ≡ lt_z a b }
{
    a < b
}

fn is_value(a: i64) -> bool
    ensures { result ≡ lt_z a (pos first_error) }
{
    a < FIRST_ERROR
}

// z is not in num.
fn outside(z: i64) -> bool
    ensures { result ≡ parts.outside z }
{
    if z < LOWEST_NUM {
        return true;
    }
    HIGHEST_NUM < z
}

#[tactic(auto, using(crate::proofs::Numbers::truth_byte))]
fn truth_of(b: bool) -> i64
    ensures { result ≡ truth b }
{
    b as i64
}

// ---- operators

// Numbers of 32 bits are divided fastest as such. By -1 that could overflow.
fn quotient(a: i64, b: i64) -> i64
    requires { SFits w32 a × SFits w32 b }
    ensures { Divided b (quot_z a b) result }
{
    if is_zero(b) {
        return BEYOND;
    }
    if b == -1 {
        return 0 - a;
    }
    (a as i32 / b as i32) as i64
}

fn remainder(a: i64, b: i64) -> i64
    requires { SFits w32 a × SFits w32 b }
    ensures { Divided b (rem_z a b) result }
{
    if is_zero(b) {
        return BEYOND;
    }
    if b == -1 {
        return 0;
    }
    (a as i32 % b as i32) as i64
}

// a AND b, a OR b
fn both(a: i64, b: i64) -> i64
    requires { SFits w32 a × SFits w32 b }
    ensures { Worked and_number a b result }
{
    if is_zero(a) {
        return a;
    }
    b
}

fn either(a: i64, b: i64) -> i64
    requires { SFits w32 a × SFits w32 b }
    ensures { Worked or_number a b result }
{
    if is_zero(a) {
        return b;
    }
    a
}

// What an operator gives, worked out with no regard to num: one test for all of them is left to the caller. Sixteen arms, and no number but theirs.
fn operate(number: u32, a: i64, b: i64) -> i64
    requires { SFits w32 a × SFits w32 b }
    ensures { Worked number a b result }
{
    match number {
        ops::SUM => a + b,
        ops::DIFFERENCE => a - b,
        ops::PRODUCT => a * b,
        ops::DIV => quotient(a, b),
        ops::MOD => remainder(a, b),
        ops::LESS => truth_of(is_less(a, b)),
        ops::LESS_EQUAL => truth_of(!is_less(b, a)),
        ops::GREATER => truth_of(is_less(b, a)),
        ops::GREATER_EQUAL => truth_of(!is_less(a, b)),
        ops::EQUAL => truth_of(is_same(a, b)),
        ops::UNEQUAL => truth_of(!is_same(a, b)),
        ops::XOR => truth_of(!is_same(a, b)),
        ops::AND => both(a, b),
        ops::OR => either(a, b),
        14 => truth_of(!is_same(a, b)),
        15 => truth_of(!is_same(a, b)),
        _ => truth_of(!is_same(a, b)),
    }
}

// z, worked out so, is not what the operator gives.
fn is_failing(number: u32, z: i64) -> bool
    ensures { result ≡ failing number z }
{
    if outside(z) {
        return number < ops::AND;
    }
    false
}

fn failure(number: u32, b: i64) -> i64
    ensures { Gives (error (failure_of number b)) result }
{
    if ops::DIV <= number {
        if is_zero(b) {
            return DIV_ZERO;
        }
        return OVERFLOW;
    }
    OVERFLOW
}

// What an operator gives.
fn combine(number: u32, a: i64, b: i64) -> i64
    requires { SFits w32 a × SFits w32 b }
    ensures { Gives (joined (operator_of number) (value a) (value b)) result }
{
    let z = operate(number, a, b);
    if is_failing(number, z) {
        return failure(number, b);
    }
    z
}

// AND and OR, which do without their right side where the left one tells the answer.
#[tactic(auto, using(crate::proofs::Operators::skips_is, crate::proofs::Operators::skips_none))]
fn skips(number: u32) -> bool
    ensures { Skips number result }
{
    matches!(number, ops::AND | ops::OR)
}

// The left side tells the answer.
fn is_known(number: u32, a: i64) -> bool
    ensures { result ≡ known (operator_of number) (value a) }
{
    match number {
        ops::AND => is_zero(a),
        ops::OR => !is_zero(a),
        _ => false,
    }
}

// NOT or a sign before an answer; a parenthesis, as a plus, changes nothing.
fn apply(op: u32, a: i64) -> i64
    requires { Small a }
    ensures { Gives (applied (prefix_in op) (decoded a)) result }
{
    if is_value(a) {
        if op == ops::NOT {
            return truth_of(is_zero(a));
        }
        if op == ops::MINUS {
            if outside(0 - a) {
                return OVERFLOW;
            }
            return 0 - a;
        }
        return a;
    }
    a
}

// ---- operands

// The cell of a word: those with the op `own` are the module's, and any other the call's.
fn cell(base: usize, op: u32, own: u32, word: usize) -> usize
    requires { base + word < addresses }
    ensures { result ≡ cell_of base op own word }
{
    if op == own {
        return word;
    }
    base + word
}

fn leaf(values: &[u8], base: usize, op: u32, v: u32) -> i64
    requires { Stores values.now base × Leaf op v }
    ensures { Read values.now base op v result }
{
    if op == ops::LITERAL {
        return v as i64 - parts::SIGNED_BIAS;
    }
    load(values, cell(base, op, ops::MODULE_SLOT, v as usize))
}

// What an operator gives that carries its right side: one choice among operators and kinds of right sides, each arm with code of its own. One call with
// operator and kind worked out would choose twice.
fn fused(values: &[u8], base: usize, op: u32, v: u32, a: i64) -> i64
    requires { Stores values.now base × Leaf (right_in op) v × SFits w32 a × (op < 64) }
    ensures { Fused values.now base op v a result }
{
    match op {
        carried::SUM_LITERAL => combine(ops::SUM, a, leaf(values, base, ops::LITERAL, v)),
        carried::DIFFERENCE_LITERAL => combine(
            ops::DIFFERENCE,
            a,
            leaf(values, base, ops::LITERAL, v),
        ),
        carried::PRODUCT_LITERAL => combine(ops::PRODUCT, a, leaf(values, base, ops::LITERAL, v)),
        carried::DIV_LITERAL => combine(ops::DIV, a, leaf(values, base, ops::LITERAL, v)),
        carried::MOD_LITERAL => combine(ops::MOD, a, leaf(values, base, ops::LITERAL, v)),
        carried::LESS_LITERAL => combine(ops::LESS, a, leaf(values, base, ops::LITERAL, v)),
        carried::LESS_EQUAL_LITERAL => combine(
            ops::LESS_EQUAL,
            a,
            leaf(values, base, ops::LITERAL, v),
        ),
        carried::GREATER_LITERAL => combine(ops::GREATER, a, leaf(values, base, ops::LITERAL, v)),
        carried::GREATER_EQUAL_LITERAL => combine(
            ops::GREATER_EQUAL,
            a,
            leaf(values, base, ops::LITERAL, v),
        ),
        carried::EQUAL_LITERAL => combine(ops::EQUAL, a, leaf(values, base, ops::LITERAL, v)),
        carried::UNEQUAL_LITERAL => combine(ops::UNEQUAL, a, leaf(values, base, ops::LITERAL, v)),
        carried::XOR_LITERAL => combine(ops::XOR, a, leaf(values, base, ops::LITERAL, v)),
        carried::AND_LITERAL => combine(ops::AND, a, leaf(values, base, ops::LITERAL, v)),
        carried::OR_LITERAL => combine(ops::OR, a, leaf(values, base, ops::LITERAL, v)),
        carried::SUM_MODULE_WORD => combine(ops::SUM, a, leaf(values, base, ops::MODULE_SLOT, v)),
        carried::DIFFERENCE_MODULE_WORD => combine(
            ops::DIFFERENCE,
            a,
            leaf(values, base, ops::MODULE_SLOT, v),
        ),
        carried::PRODUCT_MODULE_WORD => combine(
            ops::PRODUCT,
            a,
            leaf(values, base, ops::MODULE_SLOT, v),
        ),
        carried::DIV_MODULE_WORD => combine(ops::DIV, a, leaf(values, base, ops::MODULE_SLOT, v)),
        carried::MOD_MODULE_WORD => combine(ops::MOD, a, leaf(values, base, ops::MODULE_SLOT, v)),
        carried::LESS_MODULE_WORD => combine(ops::LESS, a, leaf(values, base, ops::MODULE_SLOT, v)),
        carried::LESS_EQUAL_MODULE_WORD => combine(
            ops::LESS_EQUAL,
            a,
            leaf(values, base, ops::MODULE_SLOT, v),
        ),
        carried::GREATER_MODULE_WORD => combine(
            ops::GREATER,
            a,
            leaf(values, base, ops::MODULE_SLOT, v),
        ),
        carried::GREATER_EQUAL_MODULE_WORD => combine(
            ops::GREATER_EQUAL,
            a,
            leaf(values, base, ops::MODULE_SLOT, v),
        ),
        carried::EQUAL_MODULE_WORD => combine(
            ops::EQUAL,
            a,
            leaf(values, base, ops::MODULE_SLOT, v),
        ),
        carried::UNEQUAL_MODULE_WORD => combine(
            ops::UNEQUAL,
            a,
            leaf(values, base, ops::MODULE_SLOT, v),
        ),
        carried::XOR_MODULE_WORD => combine(ops::XOR, a, leaf(values, base, ops::MODULE_SLOT, v)),
        carried::AND_MODULE_WORD => combine(ops::AND, a, leaf(values, base, ops::MODULE_SLOT, v)),
        carried::OR_MODULE_WORD => combine(ops::OR, a, leaf(values, base, ops::MODULE_SLOT, v)),
        carried::SUM_CALL_WORD => combine(ops::SUM, a, leaf(values, base, ops::CALL_SLOT, v)),
        carried::DIFFERENCE_CALL_WORD => combine(
            ops::DIFFERENCE,
            a,
            leaf(values, base, ops::CALL_SLOT, v),
        ),
        carried::PRODUCT_CALL_WORD => combine(
            ops::PRODUCT,
            a,
            leaf(values, base, ops::CALL_SLOT, v),
        ),
        carried::DIV_CALL_WORD => combine(ops::DIV, a, leaf(values, base, ops::CALL_SLOT, v)),
        carried::MOD_CALL_WORD => combine(ops::MOD, a, leaf(values, base, ops::CALL_SLOT, v)),
        carried::LESS_CALL_WORD => combine(ops::LESS, a, leaf(values, base, ops::CALL_SLOT, v)),
        carried::LESS_EQUAL_CALL_WORD => combine(
            ops::LESS_EQUAL,
            a,
            leaf(values, base, ops::CALL_SLOT, v),
        ),
        carried::GREATER_CALL_WORD => combine(
            ops::GREATER,
            a,
            leaf(values, base, ops::CALL_SLOT, v),
        ),
        carried::GREATER_EQUAL_CALL_WORD => combine(
            ops::GREATER_EQUAL,
            a,
            leaf(values, base, ops::CALL_SLOT, v),
        ),
        carried::EQUAL_CALL_WORD => combine(ops::EQUAL, a, leaf(values, base, ops::CALL_SLOT, v)),
        carried::UNEQUAL_CALL_WORD => combine(
            ops::UNEQUAL,
            a,
            leaf(values, base, ops::CALL_SLOT, v),
        ),
        carried::XOR_CALL_WORD => combine(ops::XOR, a, leaf(values, base, ops::CALL_SLOT, v)),
        carried::AND_CALL_WORD => combine(ops::AND, a, leaf(values, base, ops::CALL_SLOT, v)),
        carried::OR_CALL_WORD => combine(ops::OR, a, leaf(values, base, ops::CALL_SLOT, v)),
        _ => combine(
            ops::XOR,
            a,
            leaf(values, base, op / parts::RIGHT % parts::RIGHTS, v),
        ),
    }
}

fn element(values: &[u8], base: usize, w: u32, x: i64) -> i64
    requires { Stores values.now base × Array w × Small x }
    ensures { Indexed values.now base w x result }
{
    if is_value(x) {
        if x < 1 {
            return OUT_OF_BOUND;
        }
        if ((w / parts::VALUE / parts::SIZE) as i64) < x {
            return OUT_OF_BOUND;
        }
        let first = (w / parts::VALUE % parts::SIZE) as usize;
        return load(
            values,
            cell(base, w % parts::VALUE, ops::MODULE_ELEMENT, first) + (x as usize - 1),
        );
    }
    x
}

// An operand of several words, by the answer of what stands inside it.
fn close(values: &[u8], base: usize, w: u32, x: i64) -> i64
    requires { Stores values.now base × Closes w × Small x }
    ensures { Closed values.now base w x result }
{
    if w % parts::VALUE <= ops::CALL_ELEMENT {
        return element(values, base, w, x);
    }
    apply(w % parts::VALUE, x)
}

fn opens(op: u32, at: usize) -> usize
    requires { at + 2 < addresses }
    ensures { result ≡ opens_at op at }
{
    if op <= ops::CALL_ELEMENT {
        return at + 2;
    }
    at + 1
}

// How many parentheses and braces may still open inside an operand: in parentheses and braces one less.
fn nests(op: u32, nesting: usize) -> usize
    requires { Nests op nesting }
    ensures { result ≡ nests_in op nesting }
{
    if op <= ops::PARENTHESIS {
        return nesting - 1;
    }
    nesting
}

fn ends(op: u32, link: usize) -> usize
    requires { link + 1 < addresses }
    ensures { result ≡ ends_at op link }
{
    if op <= ops::PARENTHESIS {
        return link + 1;
    }
    link
}

// ---- spans

// The stores, the window and the words are no struct, which each contract would take apart again. The stores go through the calls of this cycle behind a reference
// each: a slice is two words, and a function that calls itself would copy both stores' for
// each call, where a reference stays in its register. Last goes how many parentheses and braces may still nest: it falls with them, and the words left at
// each call.

// An operand of several words that begins at a word with the head w, and what stands inside it ends at l. A word alone is read without a call.
#[cycle(enclosed_part_rest_whole)]
fn enclosed<'a, 'b>(
    code: &'a &'b [u8],
    values: &'a &'b [u8],
    base: usize,
    at: usize,
    w: u32,
    l: usize,
    nesting: usize,
) -> i64
    requires { Stores values.now.now base × Encloses nesting code.now.now at w l }
    ensures { Entered nesting code.now.now values.now.now base at w l result }
{
    let s = opens(w % parts::VALUE, at);
    if l == s + 1 {
        let x = head(*code, s);
        return close(
            *values,
            base,
            w,
            leaf(*values, base, x % parts::VALUE, x / parts::VALUE),
        );
    }
    close(
        *values,
        base,
        w,
        whole(code, values, base, s, l, nests(w % parts::VALUE, nesting)),
    )
}

// One operator between two words, the form of most expressions: only then true.
fn is_short(code: &[u8], from: usize, to: usize, nesting: usize) -> bool
    requires { StandsUnder nesting code.now from to }
    ensures { Shorts code.now from to result }
{
    if to == from + 3 {
        let w = head(&*code, from);
        if w % parts::VALUE <= ops::CALL_SLOT {
            let x = head(&*code, from + 1);
            if x / parts::RIGHT % parts::RIGHTS != ops::SPAN {
                return true;
            }
        }
    }
    false
}

// Such an expression's worth, with no loop and hardly a register saved.
fn short<'a>(
    code: &'a [u8],
    values: &'a [u8],
    base: usize,
    from: usize,
    to: usize,
    nesting: usize,
) -> i64
    requires { Stores values.now base × StandsUnder nesting code.now from to × Shorts code.now from to true }
    ensures { EvaluatedUnder nesting code.now values.now base from to result }
{
    let w = head(&*code, from);
    let x = head(&*code, from + 1);
    fused(
        &*values,
        base,
        x % ops::OPERATOR,
        x / parts::VALUE,
        leaf(&*values, base, w % parts::VALUE, w / parts::VALUE),
    )
}

// The operators from `start` on, up to `to`, after an operand that is worth `first`. What fails leaves at once, so that the loop goes on with values only.
// It is a walk and no count: where the next operator is says a link, so no iterator is plainer.
#[cycle(enclosed_part_rest_whole)]
fn rest<'a, 'b>(
    code: &'a &'b [u8],
    values: &'a &'b [u8],
    base: usize,
    start: usize,
    to: usize,
    first: i64,
    nesting: usize,
) -> i64
    requires { Stores values.now.now base × Follows nesting code.now.now values.now.now base first start to }
    ensures { Followed nesting code.now.now values.now.now base first start to result }
{
    let mut acc = first;
    let mut i = start;
    while i < to {
        let w = head(*code, i);
        let op = w % parts::VALUE;
        let mut b = acc;
        let mut r = i + 2;
        if op / parts::RIGHT % parts::RIGHTS == ops::SPAN {
            r = link(*code, i);
            if skips(op % parts::RIGHT) {
                // a left side that tells the answer stays; else the right one stands for both, and where it comes last it is the answer
                if !is_known(op % parts::RIGHT, acc) {
                    if r == to {
                        return whole(code, values, base, i + 1, to, nesting);
                    }
                    acc = part(code, values, base, i + 1, r, nesting);
                    if !is_value(acc) {
                        return acc;
                    }
                }
                i = r;
                continue;
            }
            b = part(code, values, base, i + 1, r, nesting);
            if !is_value(b) {
                return b;
            }
        } else {
            b = leaf(
                *values,
                base,
                op / parts::RIGHT % parts::RIGHTS,
                w / parts::VALUE,
            );
        }
        let z = operate(op % parts::RIGHT, acc, b);
        if is_failing(op % parts::RIGHT, z) {
            return failure(op % parts::RIGHT, b);
        }
        acc = z;
        i = r;
    }
    acc
}

// What any expression is worth.
#[cycle(enclosed_part_rest_whole)]
fn whole<'a, 'b>(
    code: &'a &'b [u8],
    values: &'a &'b [u8],
    base: usize,
    from: usize,
    to: usize,
    nesting: usize,
) -> i64
    requires { Stores values.now.now base × StandsUnder nesting code.now.now from to }
    ensures { EvaluatedUnder nesting code.now.now values.now.now base from to result }
{
    let w = head(*code, from);
    let mut acc = 0;
    let mut i = from + 1;
    if w % parts::VALUE <= ops::CALL_SLOT {
        acc = leaf(*values, base, w % parts::VALUE, w / parts::VALUE);
    } else {
        let l = link(*code, from);
        acc = enclosed(code, values, base, from, w, l, nesting);
        if !is_value(acc) {
            return acc;
        }
        i = ends(w % parts::VALUE, l);
    }
    rest(code, values, base, i, to, acc, nesting)
}

// What stands in an expression or in a part of it.
#[cycle(enclosed_part_rest_whole)]
fn part<'a, 'b>(
    code: &'a &'b [u8],
    values: &'a &'b [u8],
    base: usize,
    from: usize,
    to: usize,
    nesting: usize,
) -> i64
    requires { Stores values.now.now base × StandsUnder nesting code.now.now from to }
    ensures { EvaluatedUnder nesting code.now.now values.now.now base from to result }
{
    if is_short(*code, from, to, nesting) {
        return short(*code, *values, base, from, to, nesting);
    }
    whole(code, values, base, from, to, nesting)
}

// The stores are lent to the cycle from here.
fn evaluate<'a>(code: &'a [u8], values: &'a [u8], base: usize, from: usize, to: usize) -> i64
    requires { Stores values.now base × Stands code.now from to }
    ensures { Evaluated code.now values.now base from to result }
{
    part(&code, &values, base, from, to, NESTINGS)
}

// What the expression is worth that stands in the words from `from` up to `to`. A word alone is read without a call.
pub fn worth<'a>(code: &'a [u8], values: &'a [u8], base: usize, from: usize, to: usize) -> i64
    requires { Stores values.now base × Stands code.now from to }
    ensures { Evaluated code.now values.now base from to result }
{
    if to == from + 1 {
        let w = head(code, from);
        return leaf(values, base, w % parts::VALUE, w / parts::VALUE);
    }
    evaluate(&*code, &*values, base, from, to)
}
