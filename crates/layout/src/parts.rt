// How numbers are packed into a word's cells (specs/Parts.antt): each of these is what the upper part is multiplied by.
ghost use Rattle.std.specs.Prelude.{◌≡◌};
ghost use Rattle.layout.specs.Named.{parts};
ghost use Rattle.layout.specs.Parts.{width_of};

// a head: its value above its op; so is a cell of the table of meanings
pub const VALUE: u32 = 256;

// a tail: its link above its place
pub const LINK: u32 = 65536;

// an array's value: its size above its first word
pub const SIZE: u32 = 1024;

// a string's value: its characters above its bytes, quotes included
pub const CHARACTERS: u32 = 256;

// an ENDFOR's value: its FOR above the variable's word
pub const LOOP: u32 = 256;

// a name's value: its length above its number
pub const SPELLED: u32 = 8192;

// an operator's op: how its right side is given above its number; so many ways there are
pub const RIGHT: u32 = 16;

pub const RIGHTS: u32 = 4;

// what a number is held above: how far it is from the lowest
pub const BIAS: u32 = 8388607;

// a meaning's op: its kind above its type's bit, and that above the bit of a routine's word
pub const KIND: u32 = 4;

pub const TYPE: u32 = 2;

// The same with a sign, and as words count.
pub const SIGNED_BIAS: i64 = BIAS as i64;

pub const SPELLED_AT: usize = SPELLED as usize;

pub const LOOPS: usize = LOOP as usize;

pub const SIZE_AT: usize = SIZE as usize;

pub const CHARACTERS_AT: usize = CHARACTERS as usize;

// the FOR of an ENDFOR, where the op stands below its value
pub const LOOP_IN_HEAD: u32 = VALUE * LOOP;

// All of them, as the specs name them: a wrong one breaks this contract.
pub fn all() -> [u32; 11]
    ensures { result ≡ parts }
{
    [
        VALUE, LINK, SIZE, CHARACTERS, LOOP, SPELLED, RIGHT, RIGHTS, BIAS, KIND, TYPE,
    ]
}

// How many bytes a character of a string takes that begins with b: a quote stands twice.
pub fn width(b: u8) -> usize
    ensures { result ≡ width_of b }
{
    if b == b'"' { 2 } else { 1 }
}
