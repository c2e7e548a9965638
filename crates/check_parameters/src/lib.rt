// The parameters of a routine: what they make known.
// Both stores are lent one by one: check_statements says why.
#![tactic(auto)]

ghost use Rattle.std.specs.Prelude.{◌≡◌};
ghost use Rattle.check_parameters.specs.Answers.{ParametersStand, DeclaresParameters, Unopened, Opens};
ghost use Rattle.check_parameters.specs.Parts.{ParameterBegins, DeclaresParameter};

use check_names::{Scope, Walked};
use check_sites::{fill, is_taken, known};
use layout::rules::{Breach, Rule};
use layout::{kinds, limits};
use store_writing::sort;

// One parameter, whose type is at i.
fn parameter(scope: Scope, code: &mut [u8], values: &mut [u8], i: usize) -> Walked
    requires { ParameterBegins code.old values.old scope.used i × (scope.names ≡ scope.used) }
    ensures { DeclaresParameter code.old values.old code.new values.new scope.used i result × Opens scope result }
{
    let used = scope.used;
    if is_taken(code, values, check_names::OF_ROUTINE, i + 1) {
        return Err(Breach {
            rule: Rule::TakenName,
            word: i + 1,
        });
    }
    if limits::ROUTINE_COUNT <= used {
        return Err(Breach {
            rule: Rule::TooMany,
            word: i + 1,
        });
    }
    let filled = known(
        scope,
        code,
        values,
        i + 1,
        kinds::VARIABLE,
        check_names::OF_ROUTINE,
        used,
        1,
    );
    fill(values, layout::cells::FIRST_WINDOW + used as usize, 1, 0);
    Ok((i + 2, filled.count_parameter()))
}

// The parameters of a routine whose scope was entered, from the first one's type up to the parenthesis behind them. Where the comma stands is what the walk over one answers.
pub fn parameters(entered: Scope, code: &mut [u8], values: &mut [u8]) -> Walked
    requires { ParametersStand code.old values.old entered.first × Unopened entered }
    ensures { DeclaresParameters code.old values.old code.new values.new entered.first result × Opens entered result }
{
    let mut i = entered.first;
    if sort(code, i) == text_sorts::CLOSE_PAREN {
        return Ok((i, entered));
    }
    let mut scope = entered;
    loop {
        let (next, more) = parameter(scope, code, values, i)?;
        if sort(code, next) != text_sorts::COMMA {
            return Ok((next, more));
        }
        i = next + 1;
        scope = more;
    }
}
