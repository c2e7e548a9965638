// Types as the check tells them (specs/Types.antt): of an expression, and of what a function gives back. There is room for more of them.
ghost use Rattle.std.specs.Prelude.{◌≡◌};
ghost use Rattle.layout.specs.Named.{types};
ghost use Rattle.layout.specs.Types.{type_number};

#[derive(Clone, Copy, PartialEq, Eq)]
pub enum ValueType {
    Num,
    Bool,
}

// The number of a type, where one is told by number.
pub type Type = u32;

// a PROC gives nothing back
pub const NONE: Type = 0;

pub const NUM: Type = 1;

pub const BOOL: Type = 2;

// All of them, as the specs name them: a wrong one breaks this contract.
pub fn all() -> [u32; 3]
    ensures { result ≡ types }
{
    [NONE, NUM, BOOL]
}

impl ValueType {
    // The number that says it.
    pub fn number(self) -> Type
        ensures { result ≡ type_number self }
    {
        match self {
            ValueType::Num => NUM,
            ValueType::Bool => BOOL,
        }
    }
}
