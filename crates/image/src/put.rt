// Stores of numbers and bytes into a list of bytes.
ghost use Rattle.std.specs.Prelude.{◌≡◌, ◌+◌, ◌%◌, ◌≤◌, length};
ghost use Rattle.std.proofs.lemmas.List.Edits.{sets};
ghost use Rattle.image.specs.Bytes.{le};

// The low byte of a number.
fn low_byte(x: u64) -> u8
    ensures { result ≡ x % 256 }
{
    (x % 256) as u8
}

// Stores the n low bytes of v from byte `at` on.
pub fn put_le(s: &mut [u8], at: usize, n: usize, v: u64)
    requires { at + n ≤ length s.old }
    ensures { s.new ≡ sets s.old at (le n v) }
{
    let mut rest = v;
    for byte in &mut s[at..at + n] {
        *byte = low_byte(rest);
        rest /= 256;
    }
}

// Stores the eight bytes of a word from byte `at` on, which the compiler makes one store.
pub fn put_word(s: &mut [u8], at: usize, v: u64)
    requires { at + 8 ≤ length s.old }
    ensures { s.new ≡ sets s.old at (le 8 v) }
{
    s[at..at + 8].copy_from_slice(&v.to_le_bytes());
}

// Stores the bytes b from byte `at` on.
pub fn put_bytes(s: &mut [u8], at: usize, b: &[u8])
    requires { at + length b.now ≤ length s.old }
    ensures { s.new ≡ sets s.old at b.now }
{
    s[at..at + b.len()].copy_from_slice(b);
}
