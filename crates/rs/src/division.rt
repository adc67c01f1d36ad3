// The long division by the divisor, a look-up for each byte. A remainder of six bytes is packed into a number, its first byte
// lowest, and a table holds the 256 multiples of the divisor so packed. The table is filled at each call, since a constant array is
// built anew at each use. The product with x plus a root, of which the divisor is made, doubles as the rows of the table do, so it
// stands here too.
ghost use Rattle.std.specs.Prelude.{◌≡◌, [], ◌∷◌, ◌≤◌, length, drop};
ghost use Rattle.gf256.specs.Field.{◌⊗◌, pow};
ghost use Rattle.rs.specs.Polynomial.{scale, ◌⊠◌};
ghost use Rattle.rs.specs.Codeword.{divisor_bytes, parity_of, left_of};
ghost use Rattle.rs.specs.Packed.{pack as packed, unpack as unpacked, Multiples, Extended};

// 2 times a byte: a bit 7 that is set leaves with 0x11D.
fn twice(a: u8) -> u8
    ensures { result ≡ 2 ⊗ a }
{
    if a < 128 { a * 2 } else { (a - 128) * 2 ^ 0x1D }
}

// Takes each byte 2 times.
fn double(g: &mut [u8; 6])
    ensures { g.new ≡ scale 2 g.old }
{
    for a in g.iter_mut() {
        *a = twice(*a);
    }
}

// Multiplies a polynomial by x + 2^j, which gives it the root 2^j: itself a power higher, plus 2^j times itself. The six low coefficients of
// the product stay.
pub(crate) fn add_root(p: &mut [u8; 6], j: usize)
    ensures { p.new ≡ drop 1 (p.old ⊠ (1 ∷ pow 2 j ∷ [])) }
{
    let higher = *p;
    for _ in 0..j {
        double(p);
    }
    for k in 0..5 {
        p[k] ^= higher[k + 1];
    }
}

// Six bytes as one number, the first lowest.
fn pack(g: [u8; 6]) -> u64
    ensures { result ≡ packed g }
{
    u64::from_le_bytes([g[0], g[1], g[2], g[3], g[4], g[5], 0, 0])
}

// The six low bytes of w, the lowest first.
pub(crate) fn unpack(w: u64) -> [u8; 6]
    ensures { result ≡ unpacked 6 w }
{
    let [a, b, c, d, e, f, _, _] = w.to_le_bytes();
    [a, b, c, d, e, f]
}

// Writes the first `size` entries again, from `size` on, each with the row added.
fn extend(table: &mut [u64; 256], size: usize, row: u64)
    requires { size ≤ 128 }
    ensures { Extended size size row table.old table.new }
{
    for i in 0..size {
        table[size + i] = table[i] ^ row;
    }
}

// Fills the table with the 256 multiples of g: those below 2^k and the row 2^k g make those below 2^(k + 1).
fn multiples(table: &mut [u64; 256], g: [u8; 6])
    ensures { Multiples 256 g table.new }
{
    table[0] = 0;
    let mut row = g;
    for k in 0..8u32 {
        extend(table, 1 << k, pack(row));
        double(&mut row);
    }
}

// The parity of the bytes, packed. The state is one turn behind: it is the remainder with the latest byte put in at its head, and that
// head goes with the next turn, where its multiple of the divisor comes in. So a byte is added beside the look-up, and no look-up waits for it.
fn divided(table: &[u64; 256], bytes: &[u8]) -> u64
    requires { Multiples 256 divisor_bytes table.now }
    ensures { result ≡ packed (parity_of bytes.now) }
{
    let mut state: u64 = 0;
    for byte in bytes {
        state = state / 256 ^ u64::from(*byte) ^ table[(state % 256) as usize];
    }
    state / 256 ^ table[(state % 256) as usize]
}

// The parity of the bytes, packed, by a table of its own.
pub(crate) fn parity(bytes: &[u8]) -> u64
    ensures { result ≡ packed (parity_of bytes.now) }
{
    let mut table = [0; 256];
    multiples(&mut table, crate::divisor());
    divided(&table, bytes)
}

// What the division leaves of a block of 254 bytes, packed: the parity of the first 248, with the last six added.
pub(crate) fn remainder(block: &[u8]) -> u64
    requires { length block.now ≡ 254 }
    ensures { result ≡ packed (left_of block.now) }
{
    let (data, last) = block.split_last_chunk::<6>().unwrap();
    parity(data) ^ pack(*last)
}
