// The nearest position that holds a value, on either side, over a list of words.
ghost use Rattle.std.specs.Prelude.{◌*◌, ◌≤◌, length};
ghost use Rattle.words.specs.Bits.{bit, bit_at};
ghost use Rattle.words.specs.Strip.{as_bit};
ghost use Rattle.words.specs.Handles.{most_bits, words_of};
ghost use Rattle.words.specs.Working.{NextAt, LastAt};

use super::bits::{matches, put_range};

// The lowest one of a word.
fn lowest_one(x: u64) -> Option<usize>
    ensures { NextAt (bit x) 64 1 0 result }
{
    if x == 0 {
        return None;
    }
    Some(x.trailing_zeros() as usize)
}

// The highest one of a word.
fn highest_one(x: u64) -> Option<usize>
    ensures { LastAt (bit x) 1 64 result }
{
    if x == 0 {
        return None;
    }
    Some(63 - x.leading_zeros() as usize)
}

// The smallest position in the words from word `from` to word `to` - 1 that holds v.
fn first_in_words(words: &[u64], from: usize, to: usize, v: bool) -> Option<usize>
    requires { (from ≤ to) × (to ≤ length words.now) × (to ≤ words_of most_bits) }
    ensures { NextAt (bit_at words.now) (64 * to) (as_bit v) (64 * from) result }
{
    for j in from..to {
        if let Some(i) = lowest_one(matches(words[j], v)) {
            return Some(64 * j + i);
        }
    }
    None
}

// The largest position in the words below word `to` that holds v.
fn last_in_words(words: &[u64], to: usize, v: bool) -> Option<usize>
    requires { (to ≤ length words.now) × (to ≤ words_of most_bits) }
    ensures { LastAt (bit_at words.now) (as_bit v) (64 * to) result }
{
    for j in (0..to).rev() {
        if let Some(i) = highest_one(matches(words[j], v)) {
            return Some(64 * j + i);
        }
    }
    None
}

// The smallest position at or past i, below n, that holds v.
pub fn first_from(words: &[u64], n: usize, v: bool, i: usize) -> Option<usize>
    requires { (i ≤ n) × (n ≤ 64 * length words.now) × (n ≤ most_bits) }
    ensures { NextAt (bit_at words.now) n (as_bit v) i result }
{
    if i == n {
        return None;
    }
    let j = i / 64;
    let x = put_range(matches(words[j], v), 0, i % 64, false);
    let p = match lowest_one(x) {
        Some(low) => 64 * j + low,
        None => first_in_words(words, j + 1, (n + 63) / 64, v)?,
    };
    if p < n { Some(p) } else { None }
}

// The largest position below i that holds v.
pub fn last_before(words: &[u64], v: bool, i: usize) -> Option<usize>
    requires { (i ≤ 64 * length words.now) × (i ≤ most_bits) }
    ensures { LastAt (bit_at words.now) (as_bit v) i result }
{
    let j = i / 64;
    let s = i % 64;
    if s != 0 {
        let x = put_range(matches(words[j], v), s, 64, false);
        if let Some(high) = highest_one(x) {
            return Some(64 * j + high);
        }
    }
    last_in_words(words, j, v)
}
