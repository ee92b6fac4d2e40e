// The search for a window of w positions that holds at least m ones, from the left: eight words at a time, and start by start in a word that may hold its start.
// A search over whole words breaks off at the first start that serves, or goes on with the ones of the window that starts past these words.
ghost use Rattle.std.specs.Prelude.{◌≡◌, ℕ, ◌+◌, ◌*◌, ◌<◌, ◌≤◌, length};
ghost use Rattle.words.specs.Bits.{bit, bit_at};
ghost use Rattle.words.specs.Handles.{most_bits, words_of};
ghost use Rattle.bursts.specs.Calls.{most_width};
ghost use Rattle.bursts.specs.Working.{Holds, EightRuns, Searched, StartBelow};

use super::window::{Windows, bounded_start, entering, entering_ones, following, leaving_ones};
use std::ops::ControlFlow;
use words::{ones_of, span_ones};

impl<'a> Windows<'a> {
    // The windows that start in the words from word `from` to word `to` - 1, word by word, where that of word `from` holds c ones.
    fn search_words(self, from: usize, to: usize, c: usize) -> ControlFlow<usize, usize>
        requires { (from ≤ to) × (to ≤ words_of most_bits) × (64 * to + self.w ≤ 64 * length self.words.now) × Holds self.words.now self.w (64 * from) c }
        ensures { Searched self.entry.words.now self.entry.w self.entry.m (64 * from) (64 * to) result }
    {
        let mut count = c;
        for j in from..to {
            let most = count + ones_of(entering(self.words, self.w, j));
            if let Some(start) = self.start_in_word(j, count, most) {
                return ControlFlow::Break(start);
            }
            count = most - ones_of(self.words[j]);
        }
        ControlFlow::Continue(count)
    }

    // The windows that start in the eight words from word j on, word by word, where the ones that leave and enter with each word are counted.
    // Kept: beside `search_words`, which counts them itself: a closure for the two counts would take longer than these lines.
    fn try_eight(
        self,
        j: usize,
        c: usize,
        leaves: [usize; 8],
        enters: [usize; 8],
    ) -> ControlFlow<usize, usize>
        requires { (j + 8 ≤ words_of most_bits) × (64 * (j + 8) + self.w ≤ 64 * length self.words.now) × Holds self.words.now self.w (64 * j) c
            × EightRuns self.words.now (64 * j) leaves × EightRuns self.words.now (64 * j + self.w) enters }
        ensures { Searched self.entry.words.now self.entry.w self.entry.m (64 * j) (64 * (j + 8)) result }
    {
        let mut count = c;
        for i in 0..8 {
            let most = count + enters[i];
            if let Some(start) = self.start_in_word(j + i, count, most) {
                return ControlFlow::Break(start);
            }
            count = most - leaves[i];
        }
        ControlFlow::Continue(count)
    }

    // The windows that start in the eight words from word j on. All eight bounds are judged first, with no branch between them.
    fn search_eight(self, j: usize, c: usize) -> ControlFlow<usize, usize>
        requires { (j + 8 ≤ words_of most_bits) × (64 * (j + 8) + self.w ≤ 64 * length self.words.now) × Holds self.words.now self.w (64 * j) c }
        ensures { Searched self.entry.words.now self.entry.w self.entry.m (64 * j) (64 * (j + 8)) result }
    {
        let leaves = leaving_ones(self.words, j);
        let enters = entering_ones(self.words, self.w, j);
        let mut have = c;
        let mut need = self.m;
        let mut reached = false;
        for i in 0..8 {
            have += enters[i];
            if need <= have {
                reached = true;
            }
            need += leaves[i];
        }
        if reached {
            return self.try_eight(j, c, leaves, enters);
        }
        ControlFlow::Continue(have + self.m - need)
    }

    // The windows that start in the first `to` words, eight words at a time, where the first window holds c ones.
    fn search_all(self, to: usize, c: usize) -> ControlFlow<usize, usize>
        requires { (to ≤ words_of most_bits) × (64 * to + self.w ≤ 64 * length self.words.now) × Holds self.words.now self.w 0 c }
        ensures { Searched self.entry.words.now self.entry.w self.entry.m 0 (64 * to) result }
    {
        let mut count = c;
        for b in 0..to / 8 {
            count = self.search_eight(8 * b, count)?;
        }
        self.search_words(to / 8 * 8, to, count)
    }

    // The first start of a window in the first n positions that holds at least m ones.
    pub fn first_below(self, n: usize) -> Option<usize>
        requires { (n ≤ 64 * length self.words.now) × (n ≤ most_bits) }
        ensures { StartBelow self.entry.words.now n self.entry.w self.entry.m result }
    {
        if n < self.w {
            return None;
        }
        let to = (n - self.w) / 64;
        let c = span_ones(self.words, 0, self.w);
        let count = match self.search_all(to, c) {
            ControlFlow::Break(start) => return Some(start),
            ControlFlow::Continue(count) => count,
        };
        let rest = (n - self.w) % 64;
        let e = entering_below(self.words, n, self.w, to);
        let d = bounded_start(self.words[to], e, count, self.m, rest + 1)?;
        Some(64 * to + d)
    }
}

// The positions past the window that starts with word j, as far as they lie below n; no word past these is read.
fn entering_below(words: &[u64], n: usize, w: usize, j: usize) -> u64
    requires { (1 ≤ w) × (w ≤ most_width) × (64 * j + w ≤ n) × (n ≤ 64 * length words.now) × (n ≤ most_bits) }
    ensures { (p : ℕ) → p < 64 → 64 * j + w + p < n → bit result p ≡ bit_at words.now (64 * j + w + p) }
{
    let last = j + (w - 1) / 64;
    if n <= 64 * (last + 1) {
        return following(words[last], 0, (w - 1) % 64);
    }
    entering(words, w, j)
}
