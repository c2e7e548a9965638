// Output: strings, lines, and what is written so far.
// Why steps take and answer what they do stands in run_machine/src/lib.rt.
#![tactic(auto)]

ghost use Rattle.std.specs.Prelude.{◌≡◌, ◌++◌, true, false, suc, ◌+◌, ◌-◌, ◌*◌, ◌/◌, ◌%◌, ◌<◌, ◌≤◌, eqb, length, take, drop, if◌then◌else◌};
ghost use Rattle.paper.specs.Numbers.{decimal};
ghost use Rattle.paper.specs.Words.{QUOTE};
ghost use Rattle.paper.specs.Steps.{unquoted};
ghost use Rattle.store_cells.specs.Cells.{cells_of};
ghost use Rattle.code.specs.Cells.{value_at};
ghost use Rattle.code.specs.Steps.{a_write_of, a_read};
ghost use Rattle.run_machine.specs.Machine.{Says};
ghost use Rattle.run_decimals.specs.Placed as decimals;
ghost use Rattle.run_output.specs.Output.{Counted, Copies, Copied, Spelled, characters_at, Spells, Placed, line_at, line_of, HasRoom, Added, Prints, Writes, Wrote, WroteOf, Takes, Took, WasRead};
ghost use Rattle.layout.specs.Parts.{characters_part};
ghost use Rattle.store_reading.specs.Reading.{value_end};
ghost use Rattle.code.specs.Windows.{count_at};

use layout::cells::{HALF, USED, WRITTEN};
use layout::{answers, parts};
use run_targets::target_cell;
use store_evaluation::worth;
use store_reading::{link, load, place, put, value};

// The count in two cells from `cell` on: bytes written, or inputs used.
fn count_at(values: &[u8], cell: usize) -> usize
    requires { suc (suc cell) * 4 ≤ length values.now }
    ensures { result ≡ count_at (cells_of values.now) cell }
{
    store_cells::get(values, cell) as usize + HALF * (store_cells::get(values, cell + 1) as usize)
}

fn set_count(values: &mut [u8], cell: usize, n: usize)
    requires { suc (suc cell) * 4 ≤ length values.old }
    ensures { Counted values.old values.new cell n }
{
    store_cells::put(values, cell, (n % HALF) as u32);
    store_cells::put(values, cell + 1, (n / HALF) as u32);
}

// So many bytes of a text to the front of what is lent. Byte by byte: copy_from_slice compares addresses, and the library for the page, whose pointers have four bytes, admits none
// that does (host/retarget).
fn copy_plain<'a>(text: &'a [u8], out: &'a mut [u8], count: usize)
    requires { (count ≤ length text.now) × (count ≤ length out.old) }
    ensures { out.new ≡ take count text.now ++ drop count out.old }
{
    let mut k = 0;
    while k < count {
        out[k] = text[k];
        k += 1;
    }
}

// So many characters of a text to the front of what is lent. There are two counts, and one goes on by 1 or 2 as the byte says: no iterator is plainer.
fn copy_quoted<'a>(text: &'a [u8], out: &'a mut [u8], count: usize)
    requires { Copies text.now out.old count }
    ensures { Copied text.now out.old out.new count }
{
    let mut k = 0;
    let mut p = 0;
    while k < count {
        let b = text[p];
        out[k] = b;
        p += parts::width(b);
        k += 1;
    }
}

// A string of so many characters, which takes so many bytes with the quotes around it: one with no quote inside is copied as it stands, since there a byte
// need not wait for the one before it to be known.
fn copy<'a>(text: &'a [u8], out: &'a mut [u8], count: usize, bytes: usize)
    requires { Spelled text.now out.old count bytes }
    ensures { out.new ≡ unquoted (take (bytes - 2) text.now) ++ drop count out.old }
{
    if bytes == count + 2 {
        copy_plain(text, out, count);
    } else {
        copy_quoted(text, out, count);
    }
}

// How many characters the string at word i has: none where there is no such word, as value_at says of cells that are not there.
fn characters(code: &[u8], i: usize) -> usize
    requires { length code.now % 8 ≡ 0 }
    ensures { (result ≡ value_at (cells_of code.now) i / characters_part) × (result < value_end / characters_part) }
{
    if code.len() / 8 <= i {
        return 0;
    }
    value(code, i) / parts::CHARACTERS_AT
}

// The string at word i.
fn string<'a>(text: &'a [u8], code: &'a [u8], out: &'a mut [u8], at: usize, i: usize) -> usize
    requires { Spells text.now code.now i × (at + length (characters_at text.now (cells_of code.now) i) ≤ length out.old) }
    ensures { Placed out.old out.new at (characters_at text.now (cells_of code.now) i) result }
{
    let n = characters(code, i);
    if n == 0 {
        return at;
    }
    let p = place(code, i) + 1;
    let bytes = value(code, i) % parts::CHARACTERS_AT;
    copy(&text[p..], &mut out[at..], n, bytes);
    at + n
}

// A number, which takes n bytes.
fn number(out: &mut [u8], at: usize, z: i64, n: usize)
    requires { decimals.Takes z n × (at + n ≤ length out.old) }
    ensures { Placed out.old out.new at (decimal z) (at + n) }
{
    run_decimals::write_number(&mut out[at..], z, n);
}

// ---- lines

// The string at word i and LF, behind what is written.
fn add<'a>(text: &'a [u8], code: &'a [u8], values: &'a mut [u8], out: &'a mut [u8], i: usize)
    requires { Spells text.now code.now i × HasRoom values.old out.old (line_at text.now (cells_of code.now) i) }
    ensures { Added values.old values.new out.old out.new (line_at text.now (cells_of code.now) i) }
{
    let e = string(text, code, out, count_at(values, WRITTEN), i);
    out[e] = b'\n';
    set_count(values, WRITTEN, e + 1);
}

// The string at word i, a number of n bytes and LF.
fn add_of<'a>(
    text: &'a [u8],
    code: &'a [u8],
    values: &'a mut [u8],
    out: &'a mut [u8],
    i: usize,
    v: i64,
    n: usize,
)
    requires { Spells text.now code.now i × HasRoom values.old out.old (line_of text.now (cells_of code.now) i v) × decimals.Takes v n }
    ensures { Added values.old values.new out.old out.new (line_of text.now (cells_of code.now) i v) }
{
    let e = string(text, code, out, count_at(values, WRITTEN), i);
    number(out, e, v, n);
    out[e + n] = b'\n';
    set_count(values, WRITTEN, e + n + 1);
}

// ---- TPWrite

pub fn write<'a>(
    text: &'a [u8],
    code: &'a [u8],
    values: &'a mut [u8],
    out: &'a mut [u8],
    i: usize,
) -> i64
    requires { Writes text.now code.now values.old out.old i }
    ensures { Wrote text.now code.now values.old values.new out.old out.new i result }
{
    if out.len() - count_at(&*values, WRITTEN) <= characters(code, i + 1) {
        return (answers::NO_ROOM + i) as i64;
    }
    add(text, code, values, out, i + 1);
    link(code, i) as i64
}

// With a number, whose expression ends at t.
pub fn write_of<'a>(
    text: &'a [u8],
    code: &'a [u8],
    values: &'a mut [u8],
    out: &'a mut [u8],
    base: usize,
    i: usize,
    t: usize,
) -> i64
    requires { Prints text.now code.now values.old out.old base i × Says code.now i a_write_of t }
    ensures { WroteOf text.now code.now values.old values.new out.old out.new base i result }
{
    let v = worth(&*code, &*values, base, i + 5, t);
    if answers::FIRST_ERROR <= v {
        return v;
    }
    let n = run_decimals::number_length(v);
    if out.len() - count_at(&*values, WRITTEN) <= characters(code, i + 1) + n {
        return (answers::NO_ROOM + i) as i64;
    }
    add_of(text, code, values, out, i + 1, v, n);
    link(code, i) as i64
}

// ---- TPReadNum

// The next input, which is consumed, into a cell, if it is in num.
fn take<'a>(values: &'a mut [u8], inputs: &'a [u8], used: usize, cell: usize) -> bool
    requires { Takes values.old inputs.now used cell }
    ensures { Took values.old values.new inputs.now used cell result }
{
    let v = load(inputs, used);
    set_count(values, USED, used + 1);
    if v < store_numbers::LOWEST_NUM {
        return false;
    }
    if store_numbers::HIGHEST_NUM < v {
        return false;
    }
    put(values, cell, v);
    true
}

// With its string at the word s.
pub fn read<'a>(
    text: &'a [u8],
    code: &'a [u8],
    values: &'a mut [u8],
    inputs: &'a [u8],
    out: &'a mut [u8],
    base: usize,
    i: usize,
    s: usize,
) -> i64
    requires { Prints text.now code.now values.old out.old base i × Says code.now i a_read s }
    ensures { WasRead text.now code.now values.old values.new inputs.now out.old out.new base i result }
{
    let k = target_cell(&*code, &*values, base, i + 1);
    if answers::FIRST_ERROR <= k {
        return k;
    }
    if out.len() - count_at(&*values, WRITTEN) <= characters(code, s) {
        return (answers::NO_ROOM + i) as i64;
    }
    let used = count_at(&*values, USED);
    if inputs.len() / 4 <= used {
        return (answers::NO_INPUT + i) as i64;
    }
    add(text, code, values, out, s);
    if take(values, inputs, used, k as usize) {
        return link(code, i) as i64;
    }
    store_evaluation::OVERFLOW
}
