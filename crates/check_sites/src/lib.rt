// The two scopes that data are declared in: whether a name can be declared in one, and a name and its words as they become known there.
// Both stores are lent one by one: check_statements says why.
#![tactic(auto)]

ghost use Rattle.std.specs.Prelude.{◌+◌, ◌*◌, ◌<◌, ◌≤◌, length};
ghost use Rattle.layout.specs.Parts.{link_part};
ghost use Rattle.check_names.specs.Promises.{store_bytes};
ghost use Rattle.check_names.specs.Scopes.{Fits};
ghost use Rattle.check_sites.specs.Parts.{TypeBit, Fills, Taken, MakesIn};

use check_names::Scope;
use layout::kinds;
use layout::types::ValueType;
use store_writing::sort;

// Where data are declared: the bit that their meanings have in the table, and how many words they may have. The bit is a number, as it stands in a lent cell.
#[derive(Clone, Copy)]
pub struct Site {
    pub own: u32,
    pub limit: u32,
}

// ---- words

// The type that a sort names, as a bit of a meaning in a lent cell: 0 is num.
pub fn type_bit(s: u32) -> u32
    ensures { TypeBit s result }
{
    match check_names::type_named(s) {
        ValueType::Num => 0,
        ValueType::Bool => 1,
    }
}

// ---- cells

// So many cells get a word.
pub fn fill(values: &mut [u8], from: usize, count: u32, v: u32)
    requires { ((from + count) * 4 ≤ length values.old) × (from + count < link_part) }
    ensures { Fills values.old values.new from count v }
{
    for k in 0..count {
        store_cells::put(values, from + k as usize, v);
    }
}

// ---- a name

// The name at a word cannot be declared in the scope whose data have this bit in the table.
pub fn is_taken<'a>(code: &'a [u8], values: &'a [u8], own: u32, i: usize) -> bool
    requires { (i * 8 + 8 ≤ length code.now) × (store_bytes ≤ length values.now) × (own < 2) }
    ensures { Taken code.now values.now own i result }
{
    let m = check_names::meaning(code, values, i);
    if check_names::is_protected(m) {
        return true;
    }
    match check_names::kind_of(m) {
        kinds::VARIABLE | kinds::ARRAY | kinds::CONSTANT => check_names::own_of(m) == own,
        _ => false,
    }
}

// The name at a word becomes known in a scope, and has so many of its words: its type stands before it.
pub fn known(
    scope: Scope,
    code: &mut [u8],
    values: &mut [u8],
    i: usize,
    kind: u32,
    own: u32,
    value: u32,
    words: u32,
) -> Scope
    requires { (0 < i) × (i * 8 + 8 ≤ length code.old) × (store_bytes ≤ length values.old) × (kind < 4) × (own < 2) × (value < 1048576) × Fits scope words }
    ensures { MakesIn scope code.old values.old code.new values.new i kind own value words result }
{
    let bool = type_bit(sort(code, i - 1));
    let m = check_names::cell_with(kind, bool, own, value);
    scope.declare(code, values, i, m, words)
}
