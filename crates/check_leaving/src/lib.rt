// Leaving a routine: its names mean again what they meant before it.
// Both stores are lent one by one: check_statements says why.
#![tactic(auto)]

ghost use Rattle.check_leaving.specs.Answers.{Leaving, Leaves};
ghost use Rattle.check_leaving.specs.Parts.{ParametersKept, LeavesParameters, DataKept, LeavesData};

use check_names::{Scope, restore};
use layout::ops;
use store_writing::sort;

// The names stand three words apart in a store of cells, which has no iterator of words.
fn leave_parameters(scope: Scope, code: &[u8], values: &mut [u8])
    requires { ParametersKept code.now values.old scope.first scope.names }
    ensures { LeavesParameters code.now values.old values.new scope.first scope.names }
{
    let mut at = scope.first;
    for _ in 0..scope.names {
        restore(code, values, at + 1);
        at += 3;
    }
}

// Each datum leads to the next by its link.
fn leave_data(scope: Scope, code: &[u8], values: &mut [u8])
    requires { DataKept code.now values.old scope.head }
    ensures { LeavesData code.now values.old values.new scope.head }
{
    let head = scope.head;
    let mut i = store_reading::link(code, head);
    while sort(code, i) == ops::DATUM {
        restore(code, values, i + 2);
        i = store_reading::link(code, i);
    }
}

// A routine is left to the scope around it: the names that its scope opened, of parameters and data, mean again what they meant before.
pub fn leave_routine(scope: Scope, outer: Scope, code: &[u8], values: &mut [u8]) -> Scope
    requires { Leaving code.now values.old scope.first scope.names scope.head }
    ensures { Leaves scope outer code.now values.old values.new result }
{
    leave_parameters(scope, code, values);
    leave_data(scope, code, values);
    outer
}
