// Constant expressions: checked as any expression is, and worked out from the words that constants have so far.
// Both stores are lent one by one: check_statements says why.
#![tactic(auto)]

ghost use Rattle.std.specs.Prelude.{◌≡◌};
ghost use Rattle.check_constants.specs.Answers.{InNum, HeldAs, Asks, Values, Sizes};

use layout::rules::{Breach, Rule};
use layout::types::ValueType;
use layout::{answers, limits, parts};

// A value, and the word after it; or the rule broken, and its word.
pub type Valued = Result<(i64, usize), Breach>;

// How many elements an array has, and the word after its size; or the rule broken, and its word.
pub type Sized = Result<(u32, usize), Breach>;

// A number of num as a head holds it.
pub fn held(v: i64) -> u32
    requires { InNum v }
    ensures { HeldAs v result }
{
    (v + parts::SIGNED_BIAS) as u32
}

// A constant expression of a type. The words of the routine that is being checked stand in the first window.
pub fn constant(code: &mut [u8], values: &[u8], wants: ValueType, at: usize) -> Valued
    requires { Asks code.old values.now at }
    ensures { Values code.old values.now code.new wants at result }
{
    let (_, next) = check_expressions::typed(code, values, true, wants, at)?;
    let v = store_evaluation::worth(code, values, layout::cells::FIRST_WINDOW, at, next);
    if v < answers::FIRST_ERROR {
        Ok((v, next))
    } else {
        Err(Breach {
            rule: Rule::NoValue,
            word: at,
        })
    }
}

// The size of an array.
pub fn size(code: &mut [u8], values: &[u8], at: usize) -> Sized
    requires { Asks code.old values.now at }
    ensures { Sizes code.old values.now code.new at result }
{
    let (v, next) = constant(code, values, ValueType::Num, at)?;
    if v < 1 || limits::ELEMENT_COUNT < v {
        return Err(Breach {
            rule: Rule::NoValue,
            word: at,
        });
    }
    Ok((v as u32, next))
}
