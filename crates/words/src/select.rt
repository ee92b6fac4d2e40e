// Select in a word.
ghost use Rattle.std.specs.Prelude.{◌≡◌};
ghost use Rattle.words.specs.Strip.{as_bit};
ghost use Rattle.words.specs.Words.{select_in};

use super::bits::matches;
use super::lanes::{lanes_at_most, prefix_counts};
use super::table::select_in_byte;

// The position of the k-th one of a word, k from 0, or 64 where it has too few.
// Kept: 64, and not None: the sentence that it meets says 64 (docs/PROOF-MAP.md, the strip and its words).
pub fn select_in_word(x: u64, k: usize) -> usize
    ensures { result ≡ select_in 64 x 1 k }
{
    if 63 < k {
        return 64;
    }
    let s = prefix_counts(x);
    let j = lanes_at_most(s, k as u64) as usize;
    if 7 < j {
        return 64;
    }
    let at = 8 * j;
    let under = (((s << 8) >> at) % 256) as usize;
    at + select_in_byte(((x >> at) % 256) as usize, k - under)
}

// The position of the k-th bit of a word that equals v, or 64 where it has too few: for a zero that of the complement's k-th one.
pub fn select_value(x: u64, v: bool, k: usize) -> usize
    ensures { result ≡ select_in 64 x (as_bit v) k }
{
    select_in_word(matches(x, v), k)
}
