// A whole class in one call: each module as the single call has it, one behind another. Numbers and byte slices only, and a number back, for the C interface.
#![tactic(auto)]

ghost use Rattle.std.specs.Prelude.{◌≡◌, eqb, length, take};
ghost use Rattle.laws.specs.Lists.{replaced};
ghost use Rattle.paper.specs.Undoing.{plainly};
ghost use Rattle.paper.specs.Answer.{verdict, carried_out};
ghost use Rattle.classes.specs.Classes.{sum, lengths_of, part, data_bytes, class_refusal};
ghost use Rattle.call_judging.specs.Carries.{put};
ghost use Rattle.call_class.specs.Classes.{lent, Classes};
ghost use Rattle.call_class.specs.Parts.{number_of, told, sized, Takes, Carries, Carried, Accepts, Reached};

use call_judging::judge;
use call_records::{bad_depth, empty};
use layout::limits;
use layout::rules::Rule;
use run_whole::Abort;

// The numbers of what a class alone is refused for (classes/specs/Classes.antt).
const LENGTHS_DIFFER: u32 = 20;

const MANY_MODULES: u32 = 21;

const SHORT_LIST: u32 = 27;

// What a class is refused for.
#[derive(Clone, Copy)]
enum Refusal {
    SmallStore,
    WrongDepth,
    LengthsDiffer,
    ManyModules,
    ShortList,
}

impl Refusal {
    // Its number, which a host is told.
    fn number(self) -> u32
        ensures { result ≡ number_of self }
    {
        match self {
            Refusal::SmallStore => Rule::SmallStore.number(),
            Refusal::WrongDepth => Rule::WrongDepth.number(),
            Refusal::LengthsDiffer => LENGTHS_DIFFER,
            Refusal::ManyModules => MANY_MODULES,
            Refusal::ShortList => SHORT_LIST,
        }
    }
}

// the most modules of a class
const MODULES: usize = 64;

// bytes of a length, and of a module's data
const LENGTH_BYTES: usize = 4;

const DATA_BYTES: usize = LENGTH_BYTES * limits::MODULE_WORDS;

// Whether the lengths add up to so many bytes. Each is taken from what is left of them, so that no sum is too large.
fn adds_up(lengths: &[u8], total: usize) -> bool
    ensures { result ≡ eqb (sum (lengths_of lengths.now)) total }
{
    let mut left = total;
    for i in 0..lengths.len() / LENGTH_BYTES {
        let Some(rest) = left.checked_sub(store_cells::get(lengths, i) as usize) else {
            return false;
        };
        left = rest;
    }
    left == 0
}

// Whether the class can be carried out: by the tests of the request, in its order.
fn admit(
    texts: &[u8],
    lengths: &[u8],
    depth: u32,
    code: &[u8],
    values: &[u8],
    records: &[u8],
    kept: &[u8],
) -> Result<(), Refusal>
    ensures { told result ≡ class_refusal (sized texts.now lengths.now depth code.now values.now records.now kept.now) }
{
    if code.len() < limits::STORE_BYTES || values.len() < limits::STORE_BYTES {
        return Err(Refusal::SmallStore);
    }
    if bad_depth(depth) {
        return Err(Refusal::WrongDepth);
    }
    if !adds_up(lengths, texts.len()) {
        return Err(Refusal::LengthsDiffer);
    }
    let n = lengths.len() / LENGTH_BYTES;
    if MODULES < n {
        return Err(Refusal::ManyModules);
    }
    if records.len() < limits::RECORD_BYTES * n || kept.len() < DATA_BYTES * n {
        return Err(Refusal::ShortList);
    }
    Ok(())
}

// Copies the words of a module from the value store. Byte by byte: copy_from_slice would want memmove of a C library.
fn copy_words(values: &[u8], kept: &mut [u8], at: usize)
    requires { Takes values.now kept.old at }
    ensures { kept.new ≡ replaced kept.old at (take data_bytes values.now) data_bytes }
{
    for j in 0..DATA_BYTES {
        kept[at + j] = values[j];
    }
}

// Module i of a class: checked, and refused or carried out, with its share of the output, its record and its data.
fn carry_module<'a>(
    text: &'a [u8],
    steps: u32,
    depth: u32,
    inputs: &'a [u8],
    out: &mut [u8],
    code: &mut [u8],
    values: &mut [u8],
    records: &mut [u8],
    kept: &mut [u8],
    i: usize,
    share: usize,
)
    requires { Carries out.old code.old values.old records.old kept.old depth i share }
    ensures { Carried (carried_out (put plainly text.now steps depth inputs.now (part share i out.old)) (verdict text.now)) i share out.old code.old values.old records.old kept.old out.new code.new values.new records.new kept.new }
{
    let o = i * share;
    let p = o + share;
    let r = i * limits::RECORD_BYTES;
    let s = r + limits::RECORD_BYTES;
    judge(
        text,
        steps,
        depth,
        inputs,
        &mut out[o..p],
        code,
        values,
        &mut records[r..s],
        Abort::Never,
    );
    copy_words(values, kept, i * DATA_BYTES);
}

// All modules of a class that is not refused, in order.
fn carry_class<'a>(
    texts: &'a [u8],
    lengths: &[u8],
    steps: u32,
    depth: u32,
    inputs: &'a [u8],
    out: &mut [u8],
    code: &mut [u8],
    values: &mut [u8],
    records: &mut [u8],
    kept: &mut [u8],
)
    requires { Accepts (lent texts.now lengths.now steps depth inputs.now out.old code.old values.old records.old kept.old) }
    ensures { Reached (lent texts.now lengths.now steps depth inputs.now out.old code.old values.old records.old kept.old) (length (lengths_of lengths.now)) out.new code.new values.new records.new kept.new }
{
    let n = lengths.len() / LENGTH_BYTES;
    if n == 0 {
        return;
    }
    let share = out.len() / n;
    let mut at = 0;
    for i in 0..n {
        let end = at + store_cells::get(lengths, i) as usize;
        carry_module(
            &texts[at..end],
            steps,
            depth,
            inputs,
            out,
            code,
            values,
            records,
            kept,
            i,
            share,
        );
        at = end;
    }
}

// The call of a class: 0, or the number that it is refused by. Refused by 1 it touches nothing; else both stores are zeros afterwards.
pub fn rapid_class<'a>(
    texts: &'a [u8],
    lengths: &[u8],
    steps: u32,
    depth: u32,
    inputs: &'a [u8],
    out: &mut [u8],
    code: &mut [u8],
    values: &mut [u8],
    records: &mut [u8],
    kept: &mut [u8],
) -> u32
    ensures { Classes (lent texts.now lengths.now steps depth inputs.now out.old code.old values.old records.old kept.old) result out.new code.new values.new records.new kept.new }
{
    match admit(texts, lengths, depth, code, values, records, kept) {
        Ok(()) => {
            carry_class(
                texts, lengths, steps, depth, inputs, out, code, values, records, kept,
            );
            empty(code, values, 0);
            0
        }
        Err(refusal) => match refusal {
            Refusal::SmallStore => refusal.number(),
            _ => {
                empty(code, values, 0);
                refusal.number()
            }
        },
    }
}
