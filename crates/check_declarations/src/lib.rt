// Declarations: what the data of the module, and of a routine, make known.
// Both stores are lent one by one: check_statements says why.
#![tactic(auto)]

ghost use Rattle.std.specs.Prelude.{◌≡◌, ◌<◌};
ghost use Rattle.layout.specs.Parts.{link_part};
ghost use Rattle.check_names.specs.Scopes.{Stays};
ghost use Rattle.check_declarations.specs.Answers.{DataStand, DeclaresModule, RoutineStands, DeclaresRoutine};

use check_datum::datum;
use check_names::{Scope, Walked};
use check_sites::Site;
use layout::limits;
use store_writing::{set_link, sort};
use text_sorts::starts_data;

// The sites of the module's data, and of a routine's.
const MODULE: Site = Site {
    own: 0,
    limit: limits::MODULE_COUNT,
};

const ROUTINE: Site = Site {
    own: check_names::OF_ROUTINE,
    limit: limits::ROUTINE_COUNT,
};

// The module's data, in a scope that has none yet. Where the next declaration begins is what the walk over this one answers.
pub fn module_data(before: Scope, code: &mut [u8], values: &mut [u8], at: usize) -> Walked
    requires { DataStand code.old values.old at × (before.used ≡ 0) }
    ensures { DeclaresModule code.old values.old code.new values.new at result × Stays before result }
{
    let mut i = at;
    let mut scope = before;
    while starts_data(sort(code, i)) {
        let (next, more) = datum(scope, code, values, MODULE, i)?;
        i = next;
        scope = more;
    }
    Ok((i, scope))
}

// A routine's data. The word that leads to its scope's data leads to the first of them by its link, and each to the next; the parenthesis at `opens` ends them.
pub fn routine_data(
    before: Scope,
    code: &mut [u8],
    values: &mut [u8],
    opens: usize,
    at: usize,
) -> Walked
    requires { RoutineStands code.old values.old before.head before.used at × (opens < link_part) }
    ensures { DeclaresRoutine code.old values.old code.new values.new opens before.head before.used at result × Stays before result }
{
    let mut i = at;
    let mut scope = before;
    let mut last = before.head;
    while starts_data(sort(code, i)) {
        let (next, more) = datum(scope, code, values, ROUTINE, i)?;
        set_link(code, last, i);
        last = i;
        i = next;
        scope = more;
    }
    set_link(code, last, opens);
    Ok((i, scope))
}
