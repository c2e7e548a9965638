// Names by their spelling, letter case folded.
#![tactic(auto)]

ghost use Rattle.std.specs.Prelude.{◌≡◌, map, ◌+◌, ◌*◌, ◌%◌, ◌<◌, ◌≤◌, eqb, length};
ghost use Rattle.paper.specs.Sorts.{folded, equal_texts};
ghost use Rattle.check_names.specs.Meanings.{protected_cell};
ghost use Rattle.check_spelling.specs.Fronts.{Fours};
ghost use Rattle.check_spelling.specs.Hash.{buckets, four_of, few_of, many_of, hash_of};

use layout::kinds;

// Letters in both cases are the same below this.
const LETTERS: usize = 32;

// Letters of five bits, one above the other.
const SECOND: usize = 32;

const THIRD: usize = 1024;

const FOURTH: usize = 32768;

// A hash is kept below this while it is made, and has so many low bits too many at the end.
const RANGE: usize = 1048576;

const LOW_BITS: usize = 512;

// Odd numbers that spread the letters over all bits.
const MIX: usize = 73;

const SPREAD: usize = 648055;

// Equal bytes are told at once.
fn alike(a: u8, b: u8) -> bool
    ensures { result ≡ eqb (folded a) (folded b) }
{
    a == b || a.to_ascii_uppercase() == b.to_ascii_uppercase()
}

// How many fours of bytes, from the front on, are equal: each four is compared at once.
fn fours<'a>(a: &'a [u8], b: &'a [u8]) -> usize
    requires { length a.now ≡ length b.now }
    ensures { Fours a.now b.now result }
{
    let all = a.len() / 4;
    for k in 0..all {
        if store_cells::get(a, k) != store_cells::get(b, k) {
            return k;
        }
    }
    all
}

// Two names of one spelling. From the first four that differs on, letters are compared one by one.
pub fn same<'a>(a: &'a [u8], b: &'a [u8]) -> bool
    ensures { result ≡ equal_texts (map folded a.now) (map folded b.now) }
{
    if a.len() != b.len() {
        return false;
    }
    for i in fours(a, b) * 4..a.len() {
        if !alike(a[i], b[i]) {
            return false;
        }
    }
    true
}

fn low(b: u8) -> usize
    ensures { (result ≡ b % 32) × (result < 32) }
{
    (b as usize) % LETTERS
}

// Four letters from i on, five bits each.
fn four(name: &[u8], i: usize) -> usize
    requires { i + 4 ≤ length name.now }
    ensures { (result ≡ four_of name.now i) × (result < 1048576) }
{
    low(name[i]) + SECOND * low(name[i + 1]) + THIRD * low(name[i + 2]) + FOURTH * low(name[i + 3])
}

// A name of one to three letters: all of them, and how many they are.
fn few(name: &[u8]) -> usize
    requires { (0 < length name.now) × (length name.now < 4) }
    ensures { (result ≡ few_of name.now) × (result < 1048576) }
{
    let n = name.len();
    low(name[0]) + SECOND * low(name[n / 2]) + THIRD * low(name[n - 1]) + FOURTH * n
}

// A longer name: four letters at a time, after the last four.
fn many(name: &[u8]) -> usize
    requires { 4 ≤ length name.now }
    ensures { (result ≡ many_of name.now) × (result < 1048576) }
{
    let mut h = four(name, name.len() - 4);
    for k in 0..(name.len() - 1) / 4 {
        h = (h * MIX + four(name, k * 4)) % RANGE;
    }
    h
}

// A number below BUCKETS, the same for names of one spelling.
pub fn hash(name: &[u8]) -> usize
    requires { 0 < length name.now }
    ensures { (result ≡ hash_of name.now) × (result < buckets) }
{
    if name.len() < 4 {
        return few(name) * SPREAD % RANGE / LOW_BITS;
    }
    many(name) * SPREAD % RANGE / LOW_BITS
}

// The cell of a protected name's meaning; 0 for any other, as the table of meanings has it.
pub fn protected(name: &[u8]) -> u32
    requires { 0 < length name.now }
    ensures { result ≡ protected_cell (map folded name.now) }
{
    if name[0].to_ascii_uppercase() != b'E' {
        return check_names::UNKNOWN;
    }
    if same(b"ERRNO", name) {
        return check_names::cell_with(kinds::ERRNO, 0, 0, 0);
    }
    if same(b"ERR_OVERFLOW", name) {
        return check_names::cell_with(kinds::ERROR_NUMBER, 0, 0, store_numbers::ERR_OVERFLOW);
    }
    if same(b"ERR_DIVZERO", name) {
        return check_names::cell_with(kinds::ERROR_NUMBER, 0, 0, store_numbers::ERR_DIVZERO);
    }
    if same(b"ERR_OUTOFBND", name) {
        return check_names::cell_with(kinds::ERROR_NUMBER, 0, 0, store_numbers::ERR_OUTOFBND);
    }
    if same(b"ERR_ILLRAISE", name) {
        return check_names::cell_with(kinds::ERROR_NUMBER, 0, 0, store_numbers::ERR_ILLRAISE);
    }
    check_names::UNKNOWN
}
