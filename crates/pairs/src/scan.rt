// Two strips joined by a rule, word by word: counting and finding the ones.
ghost use Rattle.std.specs.Prelude.{◌≡◌, ◌+◌, ◌*◌, ◌≤◌, ◌<◌, length, slice_index};
ghost use Rattle.words.specs.Strip.{rank_of};
ghost use Rattle.words.specs.Handles.{most_bits, words_of};
ghost use Rattle.pairs.specs.Rules.{rule_of};
ghost use Rattle.pairs.specs.Working.{JoinedWord, joined_bit, KthOf};

use super::rule::{Rule, join};
use words::{low_mask, ones_of, select_in_word};

// Where a search stands: before this word, with so many ones left to pass before the one sought.
#[derive(Clone, Copy, Debug, PartialEq, Eq, Hash)]
pub struct Search {
    pub word: usize,
    pub left: usize,
}

// The end of those words from `word` on, up to `to`, that cannot hold a one with `left` ones before it, since a word has at most 64.
pub fn words_passed(word: usize, to: usize, left: usize) -> usize
    requires { (word < to) × (64 ≤ left) }
    ensures { (word < result) × (result ≤ to) × (64 * result ≤ 64 * word + left) }
{
    word + (left / 64).min(to - word)
}

// The words of two strips, joined by a rule.
#[derive(Clone, Copy)]
pub struct Joined<'a> {
    pub rule: Rule,
    pub xs: &'a [u64],
    pub ys: &'a [u64],
}

impl<'a> Joined<'a> {
    // Word j.
    fn word(self, j: usize) -> u64
        requires { (j < length self.xs.now) × (j < length self.ys.now) }
        ensures { JoinedWord (rule_of self.entry.rule) (slice_index self.entry.xs.now j) (slice_index self.entry.ys.now j) result }
    {
        join(self.rule, self.xs[j], self.ys[j])
    }

    // The ones of words `from` to `to` - 1.
    fn between(self, from: usize, to: usize) -> usize
        requires { (from ≤ to) × (to ≤ length self.xs.now) × (to ≤ length self.ys.now) × (to ≤ words_of most_bits) }
        ensures { rank_of (joined_bit (rule_of self.entry.rule) self.entry.xs.now self.entry.ys.now) 1 (64 * from) + result
            ≡ rank_of (joined_bit (rule_of self.entry.rule) self.entry.xs.now self.entry.ys.now) 1 (64 * to) }
    {
        let mut sum: usize = 0;
        for j in from..to {
            sum += ones_of(self.word(j));
        }
        sum
    }

    // The ones among the first i positions.
    pub fn ones(self, i: usize) -> usize
        requires { (i ≤ 64 * length self.xs.now) × (i ≤ 64 * length self.ys.now) × (i ≤ most_bits) }
        ensures { result ≡ rank_of (joined_bit (rule_of self.entry.rule) self.entry.xs.now self.entry.ys.now) 1 i }
    {
        let to = i / 64;
        let sum = self.between(0, to);
        let rest = i % 64;
        if rest == 0 {
            return sum;
        }
        sum + ones_of(self.word(to) & low_mask(rest))
    }

    // A search for the k-th one from word `from` on, past words that cannot hold it: these are counted with no test between them.
    fn passed(self, from: usize, to: usize, k: usize) -> Search
        requires { (from ≤ to) × (to ≤ length self.xs.now) × (to ≤ length self.ys.now) × (to ≤ words_of most_bits) }
        ensures { (result.word ≤ to) × (rank_of (joined_bit (rule_of self.entry.rule) self.entry.xs.now self.entry.ys.now) 1 (64 * result.word) + result.left
            ≡ rank_of (joined_bit (rule_of self.entry.rule) self.entry.xs.now self.entry.ys.now) 1 (64 * from) + k) }
    {
        let mut left = k;
        let mut word = from;
        // fewer than eight words to pass: from there on word by word
        while word < to && 512 <= left {
            let next = words_passed(word, to, left);
            left -= self.between(word, next);
            word = next;
        }
        Search { word, left }
    }

    // The position of the k-th one, k from 0, from word `from` on, in the first `to` words. Inlined, so that the loops know the caller's rule.
    #[inline(always)]
    pub fn place(self, from: usize, to: usize, k: usize) -> Option<usize>
        requires { (from ≤ to) × (to ≤ length self.xs.now) × (to ≤ length self.ys.now) × (to ≤ words_of most_bits) }
        ensures { KthOf (joined_bit (rule_of self.entry.rule) self.entry.xs.now self.entry.ys.now) (64 * to)
            (rank_of (joined_bit (rule_of self.entry.rule) self.entry.xs.now self.entry.ys.now) 1 (64 * from) + k) result }
    {
        let passed = self.passed(from, to, k);
        let mut left = passed.left;
        for j in passed.word..to {
            let z = self.word(j);
            let ones = ones_of(z);
            if left < ones {
                return Some(64 * j + select_in_word(z, left));
            }
            left -= ones;
        }
        None
    }
}
