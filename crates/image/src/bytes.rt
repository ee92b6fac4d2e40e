// Little-endian numbers in bytes.
ghost use Rattle.std.specs.Prelude.{◌≡◌, ℕ, ◌+◌, ◌^◌, ◌<◌, ◌≤◌, length, get_or};
ghost use Rattle.words.specs.Bits.{bit};
ghost use Rattle.image.specs.Bytes.{num, bit_from};

// One byte as a number.
pub fn byte_at(s: &[u8], at: usize) -> u64
    requires { at < length s.now }
    ensures { (result ≡ get_or s.now at 0) × (result < 256) }
{
    s[at] as u64
}

// The number of eight bytes, whose bits are theirs.
pub fn u64_at(s: &[u8], at: usize) -> u64
    requires { at + 8 ≤ length s.now }
    ensures { (result ≡ num s.now at 8) × ((p : ℕ) → p < 64 → bit result p ≡ bit_from s.now at p) }
{
    u64::from_le_bytes(s[at..at + 8].try_into().unwrap())
}

// The number of four bytes, as an index or a length.
pub fn index_at(s: &[u8], at: usize) -> usize
    requires { at + 4 ≤ length s.now }
    ensures { (result ≡ num s.now at 4) × (result < 2 ^ 32) }
{
    u32::from_le_bytes(s[at..at + 4].try_into().unwrap()) as usize
}
