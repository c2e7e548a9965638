// One step of the machine, by the op of its word. The op is matched as the number that stands in the cell, where an enum would have to be decoded at each step; and a
// step answers one number (layout/src/answers.rt says why). What steps take: run_machine/src/lib.rt.
#![tactic(auto)]

ghost use Rattle.run_machine.specs.Machine.{Steps, Stepped};

use layout::{answers, ops, parts};
use run_calls::{call_for, call_for_element, call_of};
use run_cases::select;
use run_choices::{choose, raise, test_if, test_while};
use run_loops::{enter_for, for_test};
use run_output::{read, write, write_of};
use run_resuming::{retry, try_next};
use run_returns::{back, give_back};
use run_targets::{store, store_element};
use store_reading::head;

// Step i of the call with its window at `base`. `last` is the window of the last call that the depth lent admits.
pub fn step<'a>(
    text: &'a [u8],
    code: &'a [u8],
    values: &'a mut [u8],
    inputs: &'a [u8],
    out: &'a mut [u8],
    base: usize,
    last: usize,
    i: usize,
) -> i64
    requires { Steps text.now code.now values.old out.old base last i }
    ensures { Stepped text.now code.now values.old values.new inputs.now out.old out.new base last i result }
{
    // `&*code` at each use: handed on as it is, LLVM would write the slice to memory at each step
    let w = head(code, i);
    let v = (w / parts::VALUE) as usize;
    let op = w % parts::VALUE;
    match op {
        ops::TARGET => store(&*code, values, base, i, v),
        ops::TARGET_IN_CALL => store(&*code, values, base, i, base + v),
        ops::TARGET_ELEMENT => store_element(
            &*code,
            values,
            base,
            i,
            v % parts::SIZE_AT,
            v / parts::SIZE_AT,
        ),
        ops::TARGET_ELEMENT_IN_CALL => store_element(
            &*code,
            values,
            base,
            i,
            base + v % parts::SIZE_AT,
            v / parts::SIZE_AT,
        ),
        ops::CALL_TARGET => call_for(&*code, values, base, last, i, v),
        ops::CALL_TARGET_IN_CALL => call_for(&*code, values, base, last, i, base + v),
        ops::CALL_TARGET_ELEMENT => call_for_element(
            &*code,
            values,
            base,
            last,
            i,
            v % parts::SIZE_AT,
            v / parts::SIZE_AT,
        ),
        ops::CALL_TARGET_ELEMENT_IN_CALL => call_for_element(
            &*code,
            values,
            base,
            last,
            i,
            base + v % parts::SIZE_AT,
            v / parts::SIZE_AT,
        ),
        ops::PROCEDURE_CALL => call_of(&*code, values, base, last, i),
        ops::RETURN_OF => give_back(&*code, values, base, i, v),
        ops::RETURN => back(&*code, &*values, base, i),
        ops::RAISE_OF => raise(&*code, &*values, base, i, v),
        ops::RAISE => answers::HANDED,
        ops::EXIT => answers::EXITED,
        ops::RETRY => retry(&*code, values, base, i),
        ops::TRY_NEXT => try_next(&*code, values, base, i),
        ops::WRITE => write(text, &*code, values, out, i),
        ops::WRITE_OF => write_of(text, &*code, values, out, base, i, v),
        ops::READ => read(text, &*code, values, inputs, out, base, i, v),
        ops::COMPACT_IF => test_if(&*code, &*values, base, i, v),
        ops::IF => choose(&*code, &*values, base, i, v),
        ops::WHILE => test_while(&*code, &*values, base, i, v),
        ops::FOR => enter_for(&*code, values, base, i, v),
        ops::FOR_TEST => for_test(&*code, values, base, i, v),
        ops::TEST => select(&*code, &*values, base, i, v),
        ops::END => back(&*code, &*values, base, i),
        _ => answers::FELL_OFF,
    }
}
