// The ones of a span of positions, over a list of words.
ghost use Rattle.std.specs.Prelude.{◌≡◌, ◌+◌, ◌*◌, ◌≤◌, length};
ghost use Rattle.words.specs.Bits.{bit_at, ones};
ghost use Rattle.words.specs.Handles.{most_bits, words_of};

use super::bits::{low_mask, ones_of};

// The ones of all words.
pub fn words_ones(words: &[u64]) -> usize
    requires { length words.now ≤ words_of most_bits }
    ensures { result ≡ ones (bit_at words.now) (64 * length words.now) }
{
    let mut sum: usize = 0;
    for &x in words {
        sum += ones_of(x);
    }
    sum
}

// The ones in positions a to b - 1; only the words that hold these are read.
pub fn span_ones(words: &[u64], a: usize, b: usize) -> usize
    requires { (a ≤ b) × (b ≤ 64 * length words.now) × (b ≤ most_bits) }
    ensures { (result ≤ most_bits) × (ones (bit_at words.now) a + result ≡ ones (bit_at words.now) b) }
{
    if a == b {
        return 0;
    }
    let from = a / 64;
    let to = b / 64;
    let x = words[from];
    let under = ones_of(x & low_mask(a % 64));
    if from == to {
        return ones_of(x & low_mask(b % 64)) - under;
    }
    let sum = ones_of(x) - under + words_ones(&words[from + 1..to]);
    if b % 64 == 0 {
        return sum;
    }
    sum + ones_of(words[to] & low_mask(b % 64))
}
