// What a call leaves: the record, and the stores with all but a module's words cleared. An ending and a rule stand in a record by their numbers, for the C interface; and
// refuse, report and settle promise what they leave for every number, so that a Rule or an Ending would ask more.
#![tactic(auto)]

ghost use Rattle.std.specs.Prelude.{◌≡◌, ◌||◌, ◌+◌, ◌*◌, ◌≤◌, eqb, ltb, length};
ghost use Rattle.layout.specs.Named.{store_bytes};
ghost use Rattle.layout.specs.Parts.{half_part};
ghost use Rattle.layout.specs.Rules.{wrong_depth};
ghost use Rattle.paper.specs.Answer.{record_size, depth_limit};
ghost use Rattle.call_records.specs.Records.{fields_of, refused_fields, Written, Reports, reported, Empties, Emptied};
ghost use Rattle.call_records.specs.Leaves.{Rooms, Refuses, Settles, Settled};

use layout::cells::{ERRNO, USED, USED_HIGH, WRITTEN, WRITTEN_HIGH};
use layout::limits;
use layout::rules::Rule;

// A number from its two halves.
fn joined(low: u32, high: u32) -> u64
    ensures { result ≡ low + half_part * high }
{
    low as u64 + layout::cells::HALF as u64 * (high as u64)
}

// The record, field by field.
#[derive(Clone, Copy)]
struct Record {
    ending: u64,
    refusal: u64,
    offset: u64,
    steps: u64,
    errno: u64,
    output: u64,
    inputs: u64,
    words: u64,
}

// All of it 0.
const NOTHING: Record = Record {
    ending: 0,
    refusal: 0,
    offset: 0,
    steps: 0,
    errno: 0,
    output: 0,
    inputs: 0,
    words: 0,
};

impl Record {
    // Writes it.
    fn put(self, fields: &mut [u8])
        requires { record_size ≤ length fields.old }
        ensures { Written fields.old fields.new (fields_of self) }
    {
        store_cells::put_field(fields, 0, self.ending);
        store_cells::put_field(fields, 1, self.refusal);
        store_cells::put_field(fields, 2, self.offset);
        store_cells::put_field(fields, 3, self.steps);
        store_cells::put_field(fields, 4, self.errno);
        store_cells::put_field(fields, 5, self.output);
        store_cells::put_field(fields, 6, self.inputs);
        store_cells::put_field(fields, 7, self.words);
    }
}

// Writes the record of a refusal: the number of the rule broken and its offset, and all else 0.
pub fn refuse(fields: &mut [u8], number: u32, offset: usize)
    requires { record_size ≤ length fields.old }
    ensures { Written fields.old fields.new (refused_fields number offset) }
{
    let refused = Record {
        refusal: number as u64,
        offset: offset as u64,
        ..NOTHING
    };
    refused.put(fields);
}

// Writes the record of a run that has ended after so many steps, from what it leaves in the value store.
pub fn report(values: &[u8], fields: &mut [u8], ending: u32, place: usize, made: u64, words: usize)
    requires { Reports values.now fields.old }
    ensures { Written fields.old fields.new (reported ending place made values.now words) }
{
    let ended = Record {
        ending: ending as u64,
        offset: place as u64,
        steps: made,
        errno: store_cells::get(values, ERRNO) as u64,
        output: joined(
            store_cells::get(values, WRITTEN),
            store_cells::get(values, WRITTEN_HIGH),
        ),
        inputs: joined(
            store_cells::get(values, USED),
            store_cells::get(values, USED_HIGH),
        ),
        words: words as u64,
        ..NOTHING
    };
    ended.put(fields);
}

// Clears both stores, but for so many words of the values.
pub fn empty(code: &mut [u8], values: &mut [u8], words: usize)
    requires { Empties code.old values.old words }
    ensures { Emptied code.old values.old code.new values.new words }
{
    store_cells::clear(code, 0, limits::STORE_CELLS);
    store_cells::clear(values, words, limits::STORE_CELLS - words);
}

// Fewer live calls than one, or more than the paper allows.
pub fn bad_depth(depth: u32) -> bool
    ensures { result ≡ (eqb depth 0 || ltb depth_limit depth) }
{
    depth == 0 || limits::DEEPEST < depth
}

// Empties both stores and refuses the depth.
pub fn refuse_depth(code: &mut [u8], values: &mut [u8], fields: &mut [u8])
    requires { Rooms code.old values.old fields.old }
    ensures { Refuses wrong_depth 0 code.old values.old fields.old code.new values.new fields.new }
{
    empty(code, values, 0);
    refuse(fields, Rule::WrongDepth.number(), 0);
}

// Writes the record of a run that has ended, and clears the stores but for the module's words.
pub fn settle(
    code: &mut [u8],
    values: &mut [u8],
    fields: &mut [u8],
    ending: u32,
    place: usize,
    made: u64,
    words: usize,
)
    requires { Settles code.old values.old fields.old words }
    ensures { Settled ending place made words code.old values.old fields.old code.new values.new fields.new }
{
    report(values, fields, ending, place, made, words);
    empty(code, values, words);
}
