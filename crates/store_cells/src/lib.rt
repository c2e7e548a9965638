// Cells of 32 bits in lent bytes, four each, and fields of 64 bits, eight each: low byte first. A host lends the bytes and nothing is allocated: cells, and links between them, are all that the stores have.
// Byte by byte, which compiles to one load, one store and one fill: copy_from_slice compares addresses, and the library for the page, whose pointers have four bytes, admits none that does (host/retarget).
#![tactic(auto)]

ghost use Rattle.std.specs.Prelude.{◌≡◌, ◌+◌, ◌*◌, ◌<◌, ◌≤◌, length};
ghost use Rattle.store_cells.specs.Cells.{Got, Put, Cleared, PutField};

// A byte as a cell.
fn wide(x: u8) -> u32
    ensures { (result ≡ x) × (result < 256) }
{
    x as u32
}

// A cell that is a byte.
fn low(x: u32) -> u8
    requires { x < 256 }
    ensures { result ≡ x }
{
    x as u8
}

// The cell at index i.
pub fn get(bytes: &[u8], i: usize) -> u32
    requires { i * 4 + 4 ≤ length bytes.now }
    ensures { Got bytes.now i result }
{
    let a = i * 4;
    wide(bytes[a])
        + 256 * wide(bytes[a + 1])
        + 65536 * wide(bytes[a + 2])
        + 16777216 * wide(bytes[a + 3])
}

// Makes the cell at index i be v.
pub fn put(bytes: &mut [u8], i: usize, v: u32)
    requires { i * 4 + 4 ≤ length bytes.old }
    ensures { Put bytes.old bytes.new i v }
{
    let a = i * 4;
    bytes[a] = low(v % 256);
    bytes[a + 1] = low(v / 256 % 256);
    bytes[a + 2] = low(v / 65536 % 256);
    bytes[a + 3] = low(v / 16777216);
}

// Makes field i be v: its two cells, which compiles to one store.
pub fn put_field(bytes: &mut [u8], i: usize, v: u64)
    requires { i * 8 + 8 ≤ length bytes.old }
    ensures { PutField bytes.old bytes.new i v }
{
    put(bytes, i * 2, (v % 4294967296) as u32);
    put(bytes, i * 2 + 1, (v / 4294967296) as u32);
}

// Makes count cells from index `from` on be 0, byte by byte, which compiles to one fill.
pub fn clear(bytes: &mut [u8], from: usize, count: usize)
    requires { (from + count) * 4 ≤ length bytes.old }
    ensures { Cleared bytes.old bytes.new from count }
{
    let a = from * 4;
    let n = count * 4;
    let mut j = 0;
    while j < n {
        bytes[a + j] = 0;
        j += 1;
    }
}
