// The words of the code store, two cells each, written by their parts. The parts are numbers given one by one: a struct of them would be no plainer, since most writes
// change one part and keep the others.
#![tactic(auto)]

ghost use Rattle.std.specs.Prelude.{◌≡◌, ◌+◌, ◌*◌, ◌<◌, ◌≤◌, length};
ghost use Rattle.store_cells.specs.Cells.{cells_of, Put};
ghost use Rattle.code.specs.Cells.{op_at, link_at};
ghost use Rattle.layout.specs.Parts.{value_part};
ghost use Rattle.store_reading.specs.Reading.{value_end, half_end};
ghost use Rattle.store_writing.specs.Promises.{head_with, tail_with, Rewritten, Linked, Headed, Relinked};

use layout::parts;

// The op of a word, which is its sort as long as the check has not come to it.
pub fn sort(code: &[u8], i: usize) -> u32
    requires { i * 8 + 8 ≤ length code.now }
    ensures { result ≡ op_at (cells_of code.now) i }
{
    store_reading::head(code, i) % parts::VALUE
}

// ---- writing: the other parts of the word stay, and all other words

// A word's first cell, and its second.
fn put_head(code: &mut [u8], i: usize, op: u32, value: u32)
    requires { (i * 8 + 8 ≤ length code.old) × (op < value_part) × (value < value_end) }
    ensures { Put code.old code.new (i * 2) (head_with op value) }
{
    store_cells::put(code, i * 2, op + parts::VALUE * value);
}

fn put_tail(code: &mut [u8], i: usize, place: usize, link: usize)
    requires { (i * 8 + 8 ≤ length code.old) × (place < half_end) × (link < half_end) }
    ensures { Put code.old code.new (i * 2 + 1) (tail_with place link) }
{
    store_cells::put(
        code,
        i * 2 + 1,
        (place as u32) + parts::LINK * (link as u32),
    );
}

pub fn set_head(code: &mut [u8], i: usize, op: u32, value: u32)
    requires { (i * 8 + 8 ≤ length code.old) × (op < value_part) × (value < value_end) }
    ensures { Headed code.old code.new i op value }
{
    put_head(code, i, op, value);
}

pub fn set_value(code: &mut [u8], i: usize, value: u32)
    requires { (i * 8 + 8 ≤ length code.old) × (value < value_end) }
    ensures { Put code.old code.new (i * 2) (head_with (op_at (cells_of code.old) i) value) }
{
    let old = sort(code, i);
    put_head(code, i, old, value);
}

pub fn set_place(code: &mut [u8], i: usize, place: usize)
    requires { (i * 8 + 8 ≤ length code.old) × (place < half_end) }
    ensures { Put code.old code.new (i * 2 + 1) (tail_with place (link_at (cells_of code.old) i)) }
{
    let old = store_reading::link(code, i);
    put_tail(code, i, place, old);
}

pub fn set_link(code: &mut [u8], i: usize, link: usize)
    requires { (i * 8 + 8 ≤ length code.old) × (link < half_end) }
    ensures { Relinked code.old code.new i link }
{
    let old = store_reading::place(code, i);
    put_tail(code, i, old, link);
}

pub fn set_word(code: &mut [u8], i: usize, op: u32, value: u32, link: usize)
    requires { (i * 8 + 8 ≤ length code.old) × (op < value_part) × (value < value_end) × (link < half_end) }
    ensures { Linked code.old code.new i op value link }
{
    let old = store_reading::place(code, i);
    rewrite(code, i, op + parts::VALUE * value, old, link);
}

// A word's two cells: its head, and its tail with this place and link.
pub fn rewrite(code: &mut [u8], i: usize, head: u32, place: usize, link: usize)
    requires { (i * 8 + 8 ≤ length code.old) × (place < half_end) × (link < half_end) }
    ensures { Rewritten code.old code.new i head (tail_with place link) }
{
    store_cells::put(code, i * 2, head);
    put_tail(code, i, place, link);
}
