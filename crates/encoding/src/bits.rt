ghost use Rattle.std.specs.Prelude.{◌≡◌, ◌<◌, ◌↔◌, if◌then◌else◌, IsTrue};
ghost use Rattle.encoding.specs.Bits.{bit, top_bits, cut, with_one, Agree};

use crate::Index;

/// Bit `k` of an index: bit `7 - k % 8` of its byte `k / 8`, so that bit 0 is the most significant.
pub fn bit(index: &Index, k: usize) -> bool
    requires { k < 256 }
    ensures { bit index.now k ≡ (if result then 1 else 0) }
{
    index.bytes()[k / 8] >> (7 - k % 8) & 1 == 1
}

/// The first `n` bits of a byte, the others zero.
fn top_bits(byte: u8, n: usize) -> u8
    ensures { result ≡ top_bits byte n }
{
    match n {
        0 => 0,
        1..8 => byte >> (8 - n) << (8 - n),
        _ => byte,
    }
}

/// The prefix of `n` bits: the first `n` bits of an index, the others zero.
pub fn cut(index: &Index, n: usize) -> Index
    ensures { result ≡ cut index.now n }
{
    let mut bytes = index.to_bytes();
    // Byte `k` keeps as many bits as are left after the `8 * k` before it.
    for k in 0..32 {
        bytes[k] = top_bits(bytes[k], n.saturating_sub(8 * k));
    }
    Index::new(bytes)
}

/// A prefix with its bit `k` set to one.
pub fn with_one(prefix: &Index, k: usize) -> Index
    requires { k < 256 }
    ensures { result ≡ with_one prefix.now k }
{
    let mut bytes = prefix.to_bytes();
    bytes[k / 8] |= 1 << (7 - k % 8);
    Index::new(bytes)
}

/// Whether two indices have the same first `n` bits.
pub fn agree(a: &Index, b: &Index, n: usize) -> bool
    ensures { IsTrue result ↔ Agree a.now b.now n }
{
    cut(a, n) == cut(b, n)
}
