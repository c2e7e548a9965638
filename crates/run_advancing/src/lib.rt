// One whole step of a run, on the stores and a small machine: how the run goes on, or how it has ended. A run is a loop over it.
// Why steps take and answer what they do stands in run_machine/src/lib.rt.
#![tactic(auto)]

ghost use Rattle.std.specs.Prelude.{◌≡◌, ◌%◌, length, true, false};
ghost use Rattle.store_cells.specs.Cells.{cells_of};
ghost use Rattle.code.specs.Cells.{place_at};
ghost use Rattle.run_machine.specs.Machine.{Steps};
ghost use Rattle.run_advancing.specs.Turns.{made_by, lack_by, is_lack, Stops, Stopped, Unmade, Settled, Advances};

use layout::answers;
use layout::cells::WINDOW;
use layout::endings::Ending;
use run_errors::{Machine, arise};
use run_stepping::step;
use run_undoing::leave;
use store_reading::place;

// How a run has ended with a step: the ending, the offset of its place, and whether the step counts. The place stands first, where a machine has its next step:
// with a smaller field there the compiler takes that apart at each step.
#[derive(Clone, Copy, PartialEq, Eq)]
pub struct Halt {
    pub place: usize,
    pub ending: Ending,
    pub counts: bool,
}

#[derive(Clone, Copy, PartialEq, Eq)]
pub enum Turn {
    // The run goes on from there.
    On(Machine),
    Over(Halt),
}

// The place that a word has: 0 where there is no such word, as place_at says of cells that are not there.
fn place_of(code: &[u8], i: usize) -> usize
    requires { length code.now % 8 ≡ 0 }
    ensures { result ≡ place_at (cells_of code.now) i }
{
    if code.len() / 8 <= i {
        return 0;
    }
    place(code, i)
}

// The ending of a step that is made, by its answer.
fn made_by(answer: usize) -> Ending
    ensures { result ≡ made_by answer }
{
    if answer == answers::MAIN_RETURNED as usize {
        return Ending::MainReturned;
    }
    if answer == answers::EXITED as usize {
        return Ending::Exited;
    }
    Ending::FellOff
}

// What a step lacks, by its answer.
fn lack_by(answer: usize) -> Ending
    ensures { result ≡ lack_by answer }
{
    if answer < answers::NO_INPUT {
        return Ending::BeyondDepth;
    }
    if answer < answers::NO_ROOM {
        return Ending::NoInput;
    }
    Ending::NoRoom
}

// The ending that the answer of step i says.
fn over(code: &[u8], i: usize, answer: usize) -> Halt
    requires { Stops code.now answer }
    ensures { Stopped code.now i answer result }
{
    if answers::LACKS <= answer {
        // the step is not counted
        return Halt {
            ending: lack_by(answer),
            place: place_of(code, answer % answers::ANSWERS),
            counts: false,
        };
    }
    if answer == answers::MAIN_RETURNED as usize {
        return Halt {
            ending: Ending::MainReturned,
            place: 0,
            counts: true,
        };
    }
    Halt {
        ending: made_by(answer),
        place: place_of(code, i),
        counts: true,
    }
}

// Endings 6 to 8.
fn is_lack(r: i64) -> bool
    ensures { result ≡ is_lack r }
{
    if r < answers::LACKED {
        return false;
    }
    r < answers::HANDED
}

// A step of a run that is not made, by its answer: the run ends, or a call takes the error.
fn take<'a>(code: &'a [u8], values: &'a mut [u8], base: usize, i: usize, r: i64) -> Turn
    requires { Unmade code.now values.old base i r }
    ensures { Settled false code.now values.old values.new base i r result }
{
    if r < answers::HANDED {
        return Turn::Over(over(code, i, r as usize));
    }
    match arise(&*code, values, base, i, r) {
        Some(m) => Turn::On(m),
        None => Turn::Over(Halt {
            ending: Ending::Unhandled,
            place: place(code, i),
            counts: true,
        }),
    }
}

// The same of an aborted run: it ends with 6 to 8, or the list is left that the step is of.
fn quit<'a>(code: &'a [u8], values: &'a mut [u8], base: usize, i: usize, r: i64) -> Turn
    requires { Unmade code.now values.old base i r }
    ensures { Settled true code.now values.old values.new base i r result }
{
    if is_lack(r) {
        return Turn::Over(over(code, i, r as usize));
    }
    match leave(&*code, values, base, r) {
        Some(m) => Turn::On(m),
        None => Turn::Over(Halt {
            ending: Ending::Aborted,
            place: 0,
            counts: true, // it leaves the last list
        }),
    }
}

// The next step of a run that stands at `m`; of its UNDO lists, where it is aborted. `last` is the window of the last call that the depth lent admits.
pub fn advance<'a>(
    text: &'a [u8],
    code: &'a [u8],
    values: &'a mut [u8],
    inputs: &'a [u8],
    out: &'a mut [u8],
    last: usize,
    m: Machine,
    aborted: bool,
) -> Turn
    requires { Steps text.now code.now values.old out.old m.base last m.next }
    ensures { Advances text.now code.now values.old values.new inputs.now out.old out.new last m aborted result }
{
    let i = m.next;
    let base = m.base;
    let r = step(text, &*code, values, inputs, out, base, last, i);
    if r < answers::ENTERED {
        return Turn::On(Machine {
            next: r as usize,
            base,
        });
    }
    if r < answers::LEFT {
        return Turn::On(Machine {
            next: r as usize - answers::ENTRIES,
            base: base + WINDOW,
        });
    }
    if r < answers::ENDED {
        return Turn::On(Machine {
            next: r as usize - answers::LEAVINGS,
            base: base - WINDOW,
        });
    }
    if aborted {
        return quit(&*code, values, base, i, r);
    }
    take(&*code, values, base, i, r)
}
