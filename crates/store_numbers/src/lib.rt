// Whole numbers in a range: what is worked out is exact, and then held to the range. An operand may be any i64, and so may the
// ends of the range. A result that leaves 64 bits lies outside every such range, so it is an overflow.
// No other crate calls num_range, ranged, add, subtract, multiply, minus, divide, modulo and compare yet: `store_evaluation` works num out in 64 bits and tests the
// result once. They wait for dnum (request 8), whose products leave 64 bits (D57).
#![tactic(auto)]

ghost use Rattle.std.specs.Prelude.{◌≡◌};
ghost use Rattle.store_numbers.specs.Answers.{NumRange, error_numbers, raised_by, Held, Sum, Difference, Product, Opposite, Quotient, Remainder, Size, Compared, NumberOf, WordOf};

use std::cmp::Ordering;

// The numbers of the paper's errors, which a module's statements see, so that cells hold them as numbers. Those that arithmetic raises:
pub const ERR_OVERFLOW: u32 = 1001;

pub const ERR_DIVZERO: u32 = 1002;

// an index that its array has no element for, and RAISE of a number that is none of an error's
pub const ERR_OUTOFBND: u32 = 1003;

pub const ERR_ILLRAISE: u32 = 1004;

// The ends of num.
pub const LOWEST_NUM: i64 = -8388607;

pub const HIGHEST_NUM: i64 = 8388608;

// A range, by its two ends.
#[derive(Clone, Copy, PartialEq, Eq)]
pub struct Range {
    pub low: i64,
    pub high: i64,
}

// Why an operation has no number.
#[derive(Clone, Copy, PartialEq, Eq)]
pub enum ArithmeticError {
    Overflow,
    DivZero,
}

// What an operation gives: a number, or the error that it raises.
pub type Num = Result<i64, ArithmeticError>;

impl ArithmeticError {
    // The number that a module's statements see.
    pub fn number(self) -> u32
        ensures { result ≡ raised_by self }
    {
        match self {
            ArithmeticError::Overflow => ERR_OVERFLOW,
            ArithmeticError::DivZero => ERR_DIVZERO,
        }
    }
}

// The range of num.
pub fn num_range() -> Range
    ensures { NumRange result }
{
    Range {
        low: LOWEST_NUM,
        high: HIGHEST_NUM,
    }
}

// The numbers of the errors, as the paper names them: a wrong one breaks this contract.
pub fn errors() -> [u32; 4]
    ensures { result ≡ error_numbers }
{
    [ERR_OVERFLOW, ERR_DIVZERO, ERR_OUTOFBND, ERR_ILLRAISE]
}

// A number held to the range.
pub fn ranged(r: Range, z: i64) -> Num
    ensures { Held r z result }
{
    if z < r.low {
        return Err(ArithmeticError::Overflow);
    }
    if r.high < z {
        return Err(ArithmeticError::Overflow);
    }
    Ok(z)
}

// The size of a number. That of the lowest i64 is no i64.
pub fn size(a: i64) -> u64
    ensures { Size a result }
{
    a.unsigned_abs()
}

// add, subtract and multiply are two lines each: one function over a closure would be no plainer, since each has a promise of its own.

// The exact sum, held to the range.
pub fn add(r: Range, a: i64, b: i64) -> Num
    ensures { Sum r a b result }
{
    let exact = a.checked_add(b).ok_or(ArithmeticError::Overflow)?;
    ranged(r, exact)
}

// The exact difference, held to the range.
pub fn subtract(r: Range, a: i64, b: i64) -> Num
    ensures { Difference r a b result }
{
    let exact = a.checked_sub(b).ok_or(ArithmeticError::Overflow)?;
    ranged(r, exact)
}

// The exact product, held to the range.
pub fn multiply(r: Range, a: i64, b: i64) -> Num
    ensures { Product r a b result }
{
    let exact = a.checked_mul(b).ok_or(ArithmeticError::Overflow)?;
    ranged(r, exact)
}

// -a, held to the range.
pub fn minus(r: Range, a: i64) -> Num
    ensures { Opposite r a result }
{
    subtract(r, 0, a)
}

// a DIV b, towards zero. By -1 it is -a, which need not be an i64.
pub fn divide(r: Range, a: i64, b: i64) -> Num
    ensures { Quotient r a b result }
{
    if b == 0 {
        return Err(ArithmeticError::DivZero);
    }
    if b == -1 {
        return minus(r, a);
    }
    ranged(r, a / b)
}

// a MOD b. By -1 it is 0, also where a DIV b is no i64.
pub fn modulo(r: Range, a: i64, b: i64) -> Num
    ensures { Remainder r a b result }
{
    if b == 0 {
        return Err(ArithmeticError::DivZero);
    }
    if b == -1 {
        return ranged(r, 0);
    }
    ranged(r, a % b)
}

// How a stands to b.
pub fn compare(a: i64, b: i64) -> Ordering
    ensures { Compared a b result }
{
    a.cmp(&b)
}

// A word's number, in two's complement.
pub fn number_of(x: u32) -> i64
    ensures { NumberOf x result }
{
    x.cast_signed() as i64
}

// A number's word, in two's complement.
pub fn to_word(z: i32) -> u32
    ensures { WordOf z result }
{
    z.cast_unsigned()
}
