// Levels of operators, from the tightest (paper/specs/Expressions.antt); none for a word that is no operator.
// Numbers, and no enum, as the paper counts them: text_sorts::level_of promises the number, and the right side of an operator is checked one level down.
ghost use Rattle.std.specs.Prelude.{◌≡◌};
ghost use Rattle.layout.specs.Named.{levels};

pub const NONE: u32 = 0;

pub const PRODUCTS: u32 = 1;

pub const SUMS: u32 = 2;

pub const RELATIONS: u32 = 3;

pub const CONJUNCTIONS: u32 = 4;

pub const DISJUNCTIONS: u32 = 5;

// All of them, as the specs name them: a wrong one breaks this contract.
pub fn all() -> [u32; 6]
    ensures { result ≡ levels }
{
    [NONE, PRODUCTS, SUMS, RELATIONS, CONJUNCTIONS, DISJUNCTIONS]
}
