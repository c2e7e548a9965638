// What the two stores say: a word's parts are parts of two cells (store_cells), so they are numbers, and a link is an index.
#![tactic(auto)]

ghost use Rattle.std.specs.Prelude.{◌≡◌, ◌+◌, ◌*◌, ◌≤◌, length, get_or};
ghost use Rattle.std.specs.Int.{w32};
ghost use Rattle.std.proofs.Common.{SFits};
ghost use Rattle.store_cells.specs.Cells.{cells_of};
ghost use Rattle.code.specs.Cells.{head_at, value_at, place_at, link_at};
ghost use Rattle.store_reading.specs.Reading.{value_end, half_end, Part, Loaded, Stored};

use layout::parts;

pub fn head(code: &[u8], i: usize) -> u32
    requires { i * 8 + 8 ≤ length code.now }
    ensures { result ≡ head_at (cells_of code.now) i }
{
    store_cells::get(code, i * 2)
}

pub fn value(code: &[u8], i: usize) -> usize
    requires { i * 8 + 8 ≤ length code.now }
    ensures { Part value_end (value_at (cells_of code.now) i) result }
{
    (store_cells::get(code, i * 2) / parts::VALUE) as usize
}

pub fn link(code: &[u8], i: usize) -> usize
    requires { i * 8 + 8 ≤ length code.now }
    ensures { Part half_end (link_at (cells_of code.now) i) result }
{
    (store_cells::get(code, i * 2 + 1) / parts::LINK) as usize
}

pub fn place(code: &[u8], i: usize) -> usize
    requires { i * 8 + 8 ≤ length code.now }
    ensures { Part half_end (place_at (cells_of code.now) i) result }
{
    (store_cells::get(code, i * 2 + 1) % parts::LINK) as usize
}

pub fn load(values: &[u8], i: usize) -> i64
    requires { i * 4 + 4 ≤ length values.now }
    ensures { Loaded (get_or (cells_of values.now) i 0) result }
{
    store_numbers::number_of(store_cells::get(values, i))
}

pub fn put(values: &mut [u8], i: usize, v: i64)
    requires { (i * 4 + 4 ≤ length values.old) × SFits w32 v }
    ensures { Stored values.old values.new i v }
{
    store_cells::put(values, i, store_numbers::to_word(v as i32));
}
