// Bytes compared and copied, eight at a time.
ghost use Rattle.std.specs.Prelude.{◌≡◌, ◌+◌, ◌*◌, ◌/◌, ◌≤◌, length};
ghost use Rattle.std.proofs.lemmas.List.Edits.{sets};
ghost use Rattle.words.specs.Bits.{same};

use image::{put_word, u64_at};

// Whether the bytes a are the bytes b, n words each.
// Kept: `==` of slices reads on in a group of up to 64 bytes past the first eight that differ, which a merge stops at (docs/CALLS.md).
pub fn words_equal(a: &[u8], b: &[u8], n: usize) -> bool
    requires { (length a.now ≡ 8 * n) × (length b.now ≡ 8 * n) }
    ensures { result ≡ same a.now b.now }
{
    for i in 0..n {
        if u64_at(a, 8 * i) != u64_at(b, 8 * i) {
            return false;
        }
    }
    true
}

// Stores the bytes b, whole words of them, from byte `at` on.
// Kept: `copy_from_slice` here calls memmove, and a program that links the library has to bring at most memset (docs/CALLS.md).
pub fn copy_words(s: &mut [u8], at: usize, b: &[u8])
    requires { (length b.now ≡ 8 * (length b.now / 8)) × (at + length b.now ≤ length s.old) }
    ensures { s.new ≡ sets s.old at b.now }
{
    for i in 0..b.len() / 8 {
        put_word(s, at + 8 * i, u64_at(b, 8 * i));
    }
}
