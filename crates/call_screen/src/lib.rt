// What the bench programs print of a call: the output, then the eight fields of the record.
#![tactic(auto)]

pub mod streams;

ghost use Rattle.std.specs.Prelude.{◌≡◌, [], ◌++◌, ◌+◌, ◌≤◌, length, take, OnOk};
ghost use Rattle.std.specs.Io.KnownBytes.{Appends};
ghost use Rattle.paper.specs.Undoing.{plainly};
ghost use Rattle.paper.specs.Answer.{record_size};
ghost use Rattle.call_pendant.specs.Calls.{lent};
ghost use Rattle.call_screen.specs.Screen.{line_room, field_room, behind_at, PutOne, PutLine, low_fields, Lends, Shows};

use layout::limits;
use std::io;
use std::io::Write;

// The bytes of a line that has room for any record.
pub const LINE: usize = 168;

// What stands behind a field, and behind the last one.
const BLANK: u8 = b' ';

const LINE_END: u8 = b'\n';

// How many fields the record has, the last of them, and the word of it that counts the output.
const FIELDS: usize = 8;

const LAST: usize = FIELDS - 1;

const OUTPUT: usize = 10;

// Writes a number at a place, and a byte behind it. The place behind both.
fn put_one(line: &mut [u8], at: usize, n: u32, behind: u8) -> usize
    requires { at + field_room ≤ length line.old }
    ensures { PutOne line.old line.new at n behind result }
{
    match run_decimals::put_number(line, at, n as i64) {
        Some(next) => {
            line[next] = behind;
            next + 1
        }
        None => at,
    }
}

// What stands behind field k.
fn behind(k: usize) -> u8
    ensures { result ≡ behind_at k }
{
    if k == LAST { LINE_END } else { BLANK }
}

// Writes the record's fields as a line, each by its low word, the first of its two: no field of an answer is larger. How many bytes it has.
fn put_record(line: &mut [u8], fields: &[u8]) -> usize
    requires { (line_room ≤ length line.old) × (record_size ≤ length fields.now) }
    ensures { PutLine line.old line.new (low_fields fields.now) result }
{
    let mut at = 0;
    for k in 0..FIELDS {
        at = put_one(line, at, store_cells::get(fields, k * 2), behind(k));
    }
    at
}

// How much there is to show of a call: bytes of the output, and of the line. They stand in what was lent, since there is no heap to hand them over in.
#[derive(Drop)]
pub struct Shown {
    pub output: usize,
    pub line: usize,
}

impl Shown {
    // Prints it: the output, and then the line.
    pub fn print<W: Write>(&self, writer: &mut W, out: &[u8], line: &[u8]) -> io::Result<()>
        requires { (self.now.output ≤ length out.now) × (self.now.line ≤ length line.now) }
        ensures { OnOk result (Appends (W.contents writer.old) (W.contents writer.new) (take self.now.output out.now ++ take self.now.line line.now)) }
    {
        writer.write_all(&out[..self.output])?;
        writer.write_all(&line[..self.line])
    }
}

// Makes the call, and writes its record as a line. What the lent memory holds then is what the call leaves there.
pub fn show<'a>(
    text: &'a [u8],
    steps: u32,
    depth: u32,
    inputs: &'a [u8],
    out: &mut [u8],
    code: &mut [u8],
    values: &mut [u8],
    line: &mut [u8],
) -> Shown
    requires { Lends text.now inputs.now out.old line.old }
    ensures { Shows (lent plainly text.now steps depth inputs.now out.old code.old values.old []) line.old result out.new code.new values.new line.new }
{
    let mut fields = [0u8; limits::RECORD_BYTES];
    call_pendant::rapid_run(text, steps, depth, inputs, out, code, values, &mut fields);
    let n = put_record(line, &fields);
    Shown {
        output: store_cells::get(&fields, OUTPUT) as usize,
        line: n,
    }
}
