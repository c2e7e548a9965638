// Names: all names of one spelling have one number, and a table in the value store says what each number means.
// Both stores are lent one by one: check_statements says why.
#![tactic(auto)]

ghost use Rattle.std.specs.Prelude.{◌≡◌, ◌+◌, ◌*◌, ◌<◌, ◌≤◌, length};
ghost use Rattle.code.specs.Cells.{value_in};
ghost use Rattle.check_names.specs.Promises.{Number, Meant, Declared, Links, Left, Protects, TypeOf, TypeNamed, store_bytes};
ghost use Rattle.check_names.specs.Scopes.{module_scope, routine_scope, with_parameter, Fits, EachHasWord, Declares, Enters, Leaves};
ghost use Rattle.layout.specs.Kinds.{cell_with, kind_in, own_in};

use layout::rules::Breach;
use layout::types::ValueType;
use layout::{kinds, parts};

// The table begins at this cell of the value store. The name with number n has cell MEANINGS + n.
pub const MEANINGS: usize = 8192;

// Numbers of names are below this.
pub const NUMBERS: usize = 8192;

// No meaning yet; and module data whose semicolon is still to come.
pub const UNKNOWN: u32 = 0;

pub const TO_COME: u32 = 1;

// `own` of a word of the routine.
pub const OF_ROUTINE: u32 = 1;

// The number of the name at a word.
pub fn number(code: &[u8], i: usize) -> usize
    requires { i * 8 + 8 ≤ length code.now }
    ensures { Number code.now i result }
{
    store_reading::value(code, i) % NUMBERS
}

// What the name at a word means.
pub fn meaning<'a>(code: &'a [u8], values: &'a [u8], i: usize) -> u32
    requires { (i * 8 + 8 ≤ length code.now) × (store_bytes ≤ length values.now) }
    ensures { Meant code.now values.now i result }
{
    store_cells::get(values, MEANINGS + number(code, i))
}

// The name at a word means m from now on. What it meant is kept in the word's head, and its number in the word's link.
fn declare(code: &mut [u8], values: &mut [u8], i: usize, m: u32)
    requires { (i * 8 + 8 ≤ length code.old) × (store_bytes ≤ length values.old) }
    ensures { Declared code.old values.old i m code.new values.new }
{
    let n = number(code, i);
    let before = store_cells::get(values, MEANINGS + n);
    let place = store_reading::place(code, i);
    store_writing::rewrite(code, i, before, place, n);
    store_cells::put(values, MEANINGS + n, m);
}

// The name that a word declared means again what it meant before.
pub fn restore(code: &[u8], values: &mut [u8], i: usize)
    requires { (i * 8 + 8 ≤ length code.now) × (store_bytes ≤ length values.old) × Links code.now i }
    ensures { Left code.now values.old i values.new }
{
    let n = store_reading::link(code, i);
    store_cells::put(values, MEANINGS + n, store_reading::head(code, i));
}

// A meaning is that of a protected name.
pub fn is_protected(m: u32) -> bool
    ensures { Protects m result }
{
    kinds::ERRNO <= kind_of(m)
}

// ---- types and meanings

// The type that a word of this sort names.
pub fn type_named(s: u32) -> ValueType
    ensures { TypeNamed s result }
{
    if s == text_sorts::NUM {
        return ValueType::Num;
    }
    ValueType::Bool
}

// A meaning: `bool` is 1 of a bool, `own` of a word of the routine.
pub fn cell_with(kind: u32, bool: u32, own: u32, value: u32) -> u32
    requires { (kind < 8) × (bool < 2) × (own < 2) × (value < 16777216) }
    ensures { result ≡ cell_with kind bool own value }
{
    kind * parts::KIND + parts::TYPE * bool + own + parts::VALUE * value
}

pub fn kind_of(m: u32) -> u32
    ensures { result ≡ kind_in m }
{
    m % parts::VALUE / parts::KIND
}

pub fn type_of(m: u32) -> ValueType
    ensures { TypeOf m result }
{
    if m / parts::TYPE % 2 == 0 {
        return ValueType::Num;
    }
    ValueType::Bool
}

// 1 of a word of the routine
pub fn own_of(m: u32) -> u32
    ensures { result ≡ own_in m }
{
    m % 2
}

pub fn value_of(m: u32) -> u32
    ensures { result ≡ value_in m }
{
    m / parts::VALUE
}

// A scope: how far it is filled, and which names it opened. It goes in by value, and what fills, enters or leaves it hands the new state back. What its names mean does not fit
// a struct, and stands in lent cells.
#[derive(Clone, Copy)]
pub struct Scope {
    // the words of its data
    pub used: u32,
    // the FORs around
    pub loops: u32,
    // The names it opened (a routine's parameters, a FOR's variable): how many, and the word before the first of them; each other stands three words on.
    pub names: u32,
    pub first: usize,
    // the word that leads to a routine's data, whose names it opened too
    pub head: usize,
}

// What a walk that fills a scope answers: the word after what it walked over, and the scope with what is declared; or the rule broken, and its word.
pub type Walked = Result<(usize, Scope), Breach>;

impl Scope {
    // The module's, before anything is declared.
    pub fn of_module() -> Scope
        ensures { result ≡ module_scope }
    {
        Scope {
            used: 0,
            loops: 0,
            names: 0,
            first: 0,
            head: 0,
        }
    }

    // A routine's is entered from the module's: its words are counted anew, its parameters will stand from the word `first` on, and its word `head` will lead to its data.
    pub fn enter_routine(self, first: usize, head: usize) -> Scope
        ensures { result ≡ routine_scope self first head }
    {
        Scope {
            used: 0,
            loops: self.loops,
            names: 0,
            first: first,
            head: head,
        }
    }

    // The name at a word means m from now on, and has so many words.
    pub fn declare(self, code: &mut [u8], values: &mut [u8], i: usize, m: u32, words: u32) -> Scope
        requires { (i * 8 + 8 ≤ length code.old) × (store_bytes ≤ length values.old) × Fits self words }
        ensures { Declares self code.old values.old i m words code.new values.new result }
    {
        declare(code, values, i, m);
        Scope {
            used: self.used + words,
            loops: self.loops,
            names: self.names,
            first: self.first,
            head: self.head,
        }
    }

    // What was declared last is a parameter.
    pub fn count_parameter(self) -> Scope
        requires { self.names ≤ self.used × Fits self 0 }
        ensures { result ≡ with_parameter self }
    {
        Scope {
            used: self.used,
            loops: self.loops,
            names: self.names + 1,
            first: self.first,
            head: self.head,
        }
    }

    // The body of the FOR at a word is entered: the name behind it is its variable, the routine's next word.
    pub fn enter(self, code: &mut [u8], values: &mut [u8], i: usize) -> Scope
        requires { (i * 8 + 16 ≤ length code.old) × (store_bytes ≤ length values.old) × Fits self 1 × EachHasWord self }
        ensures { Enters self code.old values.old i code.new values.new result }
    {
        let m = kinds::LOOP * parts::KIND + OF_ROUTINE + parts::VALUE * self.used;
        declare(code, values, i + 1, m);
        Scope {
            used: self.used + 1,
            loops: self.loops + 1,
            names: 1,
            first: i,
            head: 0,
        }
    }

    // A FOR's body is left to the scope around it: the variable means again what it meant before; its words stay the routine's.
    pub fn leave(self, outer: Scope, code: &[u8], values: &mut [u8]) -> Scope
        requires { (self.first * 8 + 16 ≤ length code.now) × (store_bytes ≤ length values.old) × Links code.now (self.first + 1) }
        ensures { Leaves self outer code.now values.old values.new result }
    {
        restore(code, values, self.first + 1);
        Scope {
            used: self.used,
            loops: outer.loops,
            names: outer.names,
            first: outer.first,
            head: outer.head,
        }
    }
}
