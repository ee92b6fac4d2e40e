// The loops over the words of a strip and of its waiting strip, one pass for both ends of a range.
ghost use Rattle.std.specs.Prelude.{◌≡◌, ◌+◌, ◌*◌, ◌≤◌, length, MatchOption};
ghost use Rattle.std.proofs.Math.Option.{some, none};
ghost use Rattle.words.specs.Strip.{rank_of, select_of};
ghost use Rattle.words.specs.Handles.{most_bits, words_of};
ghost use Rattle.pairs.specs.Working.{KthOf};
ghost use Rattle.waiting.specs.Working.{must_bit, may_bit};

use pairs::{Joined, Rule, join, words_passed};
use words::{low_mask, ones_of, select_in_word};

// The least and the most misfires of a count over all outcomes.
#[derive(Clone, Copy, Debug, PartialEq, Eq, Hash)]
pub struct Counts {
    pub least: u64,
    pub most: u64,
}

// Where a search stands: before this word, with so many misfires left to pass before the one sought, of those that may be and of those that must be.
#[derive(Clone, Copy, Debug, PartialEq, Eq, Hash)]
pub struct Search {
    pub word: usize,
    pub may: usize,
    pub must: usize,
}

// The words of a strip, and those of its waiting strip.
// Kept: beside pairs `Joined`, which counts under one rule: here one pass over the words counts under two.
#[derive(Clone, Copy)]
pub struct Marked<'a> {
    pub xs: &'a [u64],
    pub ys: &'a [u64],
}

impl<'a> Marked<'a> {
    // The misfires in words `from` to `to` - 1: those that every outcome has, and those that some outcome has.
    fn between(self, from: usize, to: usize) -> Counts
        requires { (from ≤ to) × (to ≤ length self.xs.now) × (to ≤ length self.ys.now) × (to ≤ words_of most_bits) }
        ensures { (rank_of (must_bit self.entry.xs.now self.entry.ys.now) 1 (64 * from) + result.least ≡ rank_of (must_bit self.entry.xs.now self.entry.ys.now) 1 (64 * to))
            × (rank_of (may_bit self.entry.xs.now self.entry.ys.now) 1 (64 * from) + result.most ≡ rank_of (may_bit self.entry.xs.now self.entry.ys.now) 1 (64 * to)) }
    {
        let mut least: u64 = 0;
        let mut most: u64 = 0;
        for j in from..to {
            let x = self.xs[j];
            let y = self.ys[j];
            least += ones_of(join(Rule::OnlyFirst, x, y)) as u64;
            most += ones_of(join(Rule::Either, x, y)) as u64;
        }
        Counts { least, most }
    }

    // The misfires before position i.
    pub fn ones(self, i: usize) -> Counts
        requires { (i ≤ 64 * length self.xs.now) × (i ≤ 64 * length self.ys.now) × (i ≤ most_bits) }
        ensures { (result.least ≡ rank_of (must_bit self.entry.xs.now self.entry.ys.now) 1 i) × (result.most ≡ rank_of (may_bit self.entry.xs.now self.entry.ys.now) 1 i) }
    {
        let to = i / 64;
        let n = self.between(0, to);
        let rest = i % 64;
        if rest == 0 {
            return n;
        }
        let x = self.xs[to];
        let y = self.ys[to];
        let low = low_mask(rest);
        let least = n.least + ones_of(join(Rule::OnlyFirst, x, y) & low) as u64;
        let most = n.most + ones_of(join(Rule::Either, x, y) & low) as u64;
        Counts { least, most }
    }

    // A search for the k-th misfire past words that cannot hold it: these are counted with no test between them.
    fn passed(self, to: usize, k: usize) -> Search
        requires { (to ≤ length self.xs.now) × (to ≤ length self.ys.now) × (to ≤ words_of most_bits) }
        ensures { (result.word ≤ to) × (rank_of (may_bit self.entry.xs.now self.entry.ys.now) 1 (64 * result.word) + result.may ≡ k)
            × (rank_of (must_bit self.entry.xs.now self.entry.ys.now) 1 (64 * result.word) + result.must ≡ k) }
    {
        let mut may = k;
        let mut must = k;
        let mut word: usize = 0;
        // fewer than eight words to pass: from there on word by word
        while word < to && 512 <= may {
            let next = words_passed(word, to, may);
            let n = self.between(word, next);
            may -= n.most as usize;
            must -= n.least as usize;
            word = next;
        }
        Search { word, may, must }
    }

    // The k-th misfire, k from 0, in the first `to` words: where it lies if every mark becomes one, and where if none does.
    pub fn places(self, to: usize, k: usize) -> Option<(usize, Option<usize>)>
        requires { (to ≤ length self.xs.now) × (to ≤ length self.ys.now) × (to ≤ words_of most_bits) }
        ensures { MatchOption result ((select_of (may_bit self.entry.xs.now self.entry.ys.now) (64 * to) 1 k ≡ none)
            × (select_of (must_bit self.entry.xs.now self.entry.ys.now) (64 * to) 1 k ≡ none))
            (λ p. (select_of (may_bit self.entry.xs.now self.entry.ys.now) (64 * to) 1 k ≡ some p.0)
            × KthOf (must_bit self.entry.xs.now self.entry.ys.now) (64 * to) k p.1) }
    {
        let passed = self.passed(to, k);
        let mut may = passed.may;
        let mut must = passed.must;
        for j in passed.word..to {
            let x = self.xs[j];
            let y = self.ys[j];
            let either = join(Rule::Either, x, y);
            let only = join(Rule::OnlyFirst, x, y);
            let most = ones_of(either);
            let least = ones_of(only);
            if may < most {
                let earliest = 64 * j + select_in_word(either, may);
                if must < least {
                    let latest = 64 * j + select_in_word(only, must);
                    return Some((earliest, Some(latest)));
                }
                let sure = Joined {
                    rule: Rule::OnlyFirst,
                    xs: self.xs,
                    ys: self.ys,
                };
                return Some((earliest, sure.place(j + 1, to, must - least)));
            }
            may -= most;
            must -= least;
        }
        None
    }
}
