// Positions of a list of words written: one, a span, all.
ghost use Rattle.std.specs.Prelude.{◌≡◌, ◌+◌, ◌-◌, ◌*◌, ◌<◌, ◌≤◌, length};
ghost use Rattle.words.specs.Bits.{bit_at};
ghost use Rattle.words.specs.Strip.{as_bit};
ghost use Rattle.words.specs.Handles.{most_bits, words_of};
ghost use Rattle.words.specs.Working.{RangePut};

use super::bits::{bit_of, flip_bit, put_bit, put_range};

// Makes position p of the words v.
pub fn put_position(words: &mut [u64], p: usize, v: bool)
    requires { p < 64 * length words.old }
    ensures { RangePut words.old p (p + 1) (as_bit v) words.new }
{
    words[p / 64] = put_bit(words[p / 64], p % 64, v);
}

// Flips position p, and answers the new bit.
pub fn flip_position(words: &mut [u64], p: usize) -> u64
    requires { p < 64 * length words.old }
    ensures value { result ≡ 1 - bit_at words.old p }
    ensures range_put { RangePut words.old p (p + 1) (1 - bit_at words.old p) words.new }
{
    let x = flip_bit(words[p / 64], p % 64);
    words[p / 64] = x;
    bit_of(x, p % 64)
}

// Makes the bits from i to j - 1 of word k v.
fn put_in_word(words: &mut [u64], k: usize, i: usize, j: usize, v: bool)
    requires { (k < length words.old) × (i ≤ j) × (j ≤ 64) }
    ensures { RangePut words.old (64 * k + i) (64 * k + j) (as_bit v) words.new }
{
    words[k] = put_range(words[k], i, j, v);
}

// Makes all bits of the words from word `from` to word `to` - 1 v.
fn fill_words(words: &mut [u64], from: usize, to: usize, v: bool)
    requires { (from ≤ to) × (to ≤ length words.old) }
    ensures { RangePut words.old (64 * from) (64 * to) (as_bit v) words.new }
{
    words[from..to].fill(put_range(0, 0, 64, v));
}

// Makes the positions from a to e - 1 of the words v.
pub fn put_positions(words: &mut [u64], a: usize, e: usize, v: bool)
    requires { (a ≤ e) × (e ≤ 64 * length words.old) × (length words.old ≤ words_of most_bits) }
    ensures { RangePut words.old a e (as_bit v) words.new }
{
    if a == e {
        return;
    }
    let first = a / 64;
    let last = (e - 1) / 64;
    let i = a % 64;
    let j = (e - 1) % 64 + 1;
    if first == last {
        put_in_word(words, first, i, j, v);
        return;
    }
    put_in_word(words, first, i, 64, v);
    fill_words(words, first + 1, last, v);
    put_in_word(words, last, 0, j, v);
}
