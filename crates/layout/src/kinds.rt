// Kinds of meanings (specs/Kinds.antt). Kind 0 is no meaning yet.
// Numbers, and no enum: a cell of lent bytes may hold any number there, and check_names::kind_of promises the one that it holds.
ghost use Rattle.std.specs.Prelude.{◌≡◌};
ghost use Rattle.layout.specs.Named.{kinds};

pub const VARIABLE: u32 = 1;

pub const ARRAY: u32 = 2;

pub const CONSTANT: u32 = 3;

pub const LOOP: u32 = 4;

pub const ROUTINE: u32 = 5;

pub const ERRNO: u32 = 6;

pub const ERROR_NUMBER: u32 = 7;

// All of them, as the specs name them: a wrong one breaks this contract.
pub fn all() -> [u32; 7]
    ensures { result ≡ kinds }
{
    [
        VARIABLE,
        ARRAY,
        CONSTANT,
        LOOP,
        ROUTINE,
        ERRNO,
        ERROR_NUMBER,
    ]
}
