// A run beside a listing that was made elsewhere: how it ends, and how much of the listing is that of its own counted steps.
// Why its functions take the stores one by one stands in run_machine/src/lib.rt.
#![tactic(auto)]

ghost use Rattle.std.specs.Prelude.{◌≡◌, ◌<◌};
ghost use Rattle.run_machine.specs.Machine.{Steps};
ghost use Rattle.run_whole.specs.Runs.{Begins};
ghost use Rattle.run_marking.specs.Beside.{most_steps, Meets, Agrees, Settles, Follows, RanBeside};

use layout::cells::FIRST_WINDOW;
use layout::endings::Ending;
use run_advancing::{Turn, advance};
use run_errors::Machine;
use run_whole::{begin, last_window};
use store_reading::place;

// bytes of an entry
const ENTRY: usize = 4;

// How a run ended, as `run_whole::Ended` has it; whether the listing is that of its counted steps; and how many entries both have in common at their beginning.
#[derive(Clone, Copy, PartialEq, Eq)]
pub struct Marked {
    pub ending: Ending,
    pub place: usize,
    pub made: u64,
    pub same: bool,
    pub index: u32,
}

// Behind `made` entries of our own, of which the first `common` are the listing's, comes one more, `at`: how many are the listing's now.
fn meet(listing: &[u8], common: u32, made: u32, at: usize) -> u32
    requires { made < most_steps }
    ensures { Meets listing.now common made at result }
{
    // they have parted before
    if common != made {
        return common;
    }
    if listing.len() / ENTRY <= made as usize {
        return common;
    }
    if store_cells::get(listing, made as usize) as usize != at {
        return common;
    }
    common + 1
}

// All of both is common: `made` entries of our own, and the listing.
fn agree(listing: &[u8], common: u32, made: u32) -> bool
    ensures { Agrees listing.now common made result }
{
    if common != made {
        return false;
    }
    common as usize == listing.len() / ENTRY
}

// What is told of a run that has ended.
fn settle(listing: &[u8], ending: Ending, place: usize, made: u32, common: u32) -> Marked
    ensures { Settles listing.now ending place made common result }
{
    Marked {
        ending,
        place,
        made: made as u64,
        same: agree(listing, common, made),
        index: common,
    }
}

// From step to step, from `from` on, until the run has ended or all are spent. Each counted step is one entry.
// The count rises behind the step, not before it as a `for`'s would: run_whole::walk says why.
fn follow<'a>(
    text: &'a [u8],
    code: &'a [u8],
    values: &'a mut [u8],
    inputs: &'a [u8],
    out: &'a mut [u8],
    last: usize,
    from: Machine,
    steps: u32,
    listing: &'a [u8],
) -> Marked
    requires { Steps text.now code.now values.old out.old from.base last from.next }
    ensures { Follows text.now code.now values.old values.new inputs.now out.old out.new listing.now last from steps result }
{
    let mut m = from;
    let mut made = 0;
    let mut common = 0;
    while made < steps {
        let at = place(code, m.next);
        match advance(text, &*code, values, inputs, out, last, m, false) {
            Turn::On(next) => {
                common = meet(listing, common, made, at);
                m = next;
                made += 1;
            }
            Turn::Over(halt) => {
                if halt.counts {
                    let more = meet(listing, common, made, at);
                    return settle(listing, halt.ending, halt.place, made + 1, more);
                }
                return settle(listing, halt.ending, halt.place, made, common);
            }
        }
    }
    settle(
        listing,
        Ending::StepsSpent,
        place(code, m.next),
        made,
        common,
    )
}

// A run of the module whose main begins at word h, beside a listing.
pub fn mark<'a>(
    text: &'a [u8],
    code: &'a [u8],
    values: &'a mut [u8],
    inputs: &'a [u8],
    out: &'a mut [u8],
    h: usize,
    steps: u32,
    depth: u32,
    listing: &'a [u8],
) -> Marked
    requires { Begins text.now code.now values.old h depth }
    ensures { RanBeside text.now code.now values.old values.new inputs.now out.old out.new listing.now h steps depth result }
{
    begin(&*code, values, h);
    follow(
        text,
        code,
        values,
        inputs,
        out,
        last_window(depth),
        Machine {
            next: place(code, h),
            base: FIRST_WINDOW,
        },
        steps,
        listing,
    )
}
