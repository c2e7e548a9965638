// Whole numbers in plain decimal, written into a lent slice. By hand: number_length is asked before a byte is written, and the digits
// are put from the last one on; what the library's formatting writes into a slice would have to be measured first as well, and no line would be less.
#![tactic(auto)]

ghost use Rattle.std.specs.Prelude.{◌≡◌, ◌∷◌, ◌++◌, ◌+◌, ◌≤◌, length, drop};
ghost use Rattle.paper.specs.Numbers.{digits, decimal};
ghost use Rattle.run_decimals.specs.Placed.{Takes, PutsNumber};

// How many digits n has: 10 divides it as long as there are more, which no iterator says more plainly.
fn count_digits(n: u64) -> usize
    ensures { (result ≡ length (digits 20 n)) × (result ≤ 20) }
{
    let mut m = n;
    let mut k = 0;
    while 10 <= m {
        m = m / 10;
        k += 1;
    }
    k + 1
}

// How many bytes z takes.
pub fn number_length(z: i64) -> usize
    ensures { Takes z result }
{
    let k = count_digits(store_numbers::size(z));
    if z < 0 {
        return k + 1;
    }
    k
}

// Writes the digits of n, count of them, to the front of what is lent: the last digit first, since 10 divides
// n as long as there are more, and no iterator is plainer.
fn write_digits(out: &mut [u8], n: u64, count: usize)
    requires { (count ≡ length (digits 20 n)) × (count ≤ length out.old) }
    ensures { out.new ≡ digits 20 n ++ drop count out.old }
{
    let mut m = n;
    let mut i = count - 1;
    while 10 <= m {
        out[i] = 48 + (m % 10) as u8;
        m = m / 10;
        i -= 1;
    }
    out[i] = 48 + m as u8;
}

// Writes a minus sign and the digits of n, count bytes in all: what is behind the sign is lent on.
fn write_negative(out: &mut [u8], n: u64, count: usize)
    requires { (count ≡ length (digits 20 n) + 1) × (count ≤ length out.old) }
    ensures { out.new ≡ 45 ∷ (digits 20 n ++ drop count out.old) }
{
    out[0] = 45;
    write_digits(&mut out[1..], n, count - 1);
}

// Writes z, of count bytes, to the front of what is lent.
pub fn write_number(out: &mut [u8], z: i64, count: usize)
    requires { (count ≡ length (decimal z)) × (count ≤ length out.old) }
    ensures { out.new ≡ decimal z ++ drop count out.old }
{
    let n = store_numbers::size(z);
    if z < 0 {
        write_negative(out, n, count);
    } else {
        write_digits(out, n, count);
    }
}

// Writes z at a place, where it fits whole, and tells the place behind it: the unwritten rest is lent on, so that the earlier bytes stay.
pub fn put_number(out: &mut [u8], at: usize, z: i64) -> Option<usize>
    ensures { PutsNumber out.old out.new at z result }
{
    let n = number_length(z);
    if out.len() < at {
        return None;
    }
    if out.len() - at < n {
        return None;
    }
    write_number(&mut out[at..], z, n);
    Some(at + n)
}
