// Classes of bytes by comparisons: what names and numbers are made of. Each test returns early, as in text_scanner, for the speed of reading.
ghost use Rattle.std.specs.Prelude.{◌≡◌, ◌||◌, eqb};
ghost use Rattle.paper.specs.Words.{UNDERSCORE, between, letter, digit, in_name};

pub fn in_range(b: u8, low: u8, high: u8) -> bool
    ensures { result ≡ between low high b }
{
    if b < low {
        return false;
    }
    b <= high
}

pub fn is_digit(b: u8) -> bool
    ensures { result ≡ digit b }
{
    in_range(b, b'0', b'9')
}

pub fn is_letter(b: u8) -> bool
    ensures { result ≡ letter b }
{
    if in_range(b, b'A', b'Z') {
        return true;
    }
    in_range(b, b'a', b'z')
}

// Whether a byte that is no letter goes on with a name.
pub(crate) fn goes_on(b: u8) -> bool
    ensures { result ≡ digit b || eqb b UNDERSCORE }
{
    if is_digit(b) {
        return true;
    }
    b == b'_'
}

pub(crate) fn is_in_name(b: u8) -> bool
    ensures { result ≡ in_name b }
{
    if is_letter(b) {
        return true;
    }
    goes_on(b)
}
