// A block: 512 bits, eight words.
ghost use Rattle.std.specs.Prelude.{◌≡◌, ◌+◌, ◌-◌, ◌*◌, ◌^◌, ◌≤◌, min, length, take, drop};
ghost use Rattle.words.specs.Bits.{bit, bit_at, ones};
ghost use Rattle.words.specs.Strip.{as_bit, rank_of, select_of};
ghost use Rattle.words.specs.Words.{place_in};

use super::bits::{low_mask, matches, ones_of};
use super::select::select_value;
use super::span::words_ones;

// Block b of a list of words.
pub fn block_at(words: &[u64], b: usize) -> &[u64; 8]
    requires { 8 * b + 8 ≤ length words.now }
    ensures { result.now ≡ take 8 (drop (8 * b) words.now) }
{
    &words.as_chunks::<8>().0[b]
}

// The ones of a block.
pub fn block_ones(block: &[u64; 8]) -> usize
    ensures { result ≡ ones (bit_at block.now) 512 }
{
    words_ones(block)
}

// The mask of those bits of word j that lie below position m.
fn word_mask(m: usize, j: usize) -> u64
    ensures { result ≡ 2 ^ min 64 (m - 64 * j) - 1 }
{
    let q = m / 64;
    if j < q {
        return 0xffff_ffff_ffff_ffff;
    }
    if j == q { low_mask(m % 64) } else { 0 }
}

// The ones among the first m bits of a block: of all eight words, each masked, so that the loop takes eight turns whatever m is.
pub fn block_rank(block: &[u64; 8], m: usize) -> usize
    requires { m ≤ 512 }
    ensures { result ≡ ones (bit_at block.now) m }
{
    let mut sum: usize = 0;
    for j in 0..8 {
        sum += ones_of(block[j] & word_mask(m, j));
    }
    sum
}

// The number of v in a word.
fn word_count(x: u64, v: bool) -> usize
    ensures { (result ≤ 64) × (result ≡ rank_of (bit x) (as_bit v) 64) }
{
    ones_of(matches(x, v))
}

// The position of the k-th v in a block, k from 0, or 512 where it has too few: the word that holds it, then the place there.
// The word is found by the running counts of v, none of which waits for a comparison.
// Kept: 512, and not None: with the word's 64 the sum is 512 with no test.
pub fn block_select(block: &[u64; 8], v: bool, k: usize) -> usize
    ensures { result ≡ place_in 512 (select_of (bit_at block.now) 512 (as_bit v) k) }
{
    let mut sum: usize = 0;
    let mut passed: usize = 0;
    let mut j: usize = 0;
    for i in 0..7 {
        sum += word_count(block[i], v);
        if sum <= k {
            j += 1;
            passed = sum;
        }
    }
    64 * j + select_value(block[j], v, k - passed)
}
