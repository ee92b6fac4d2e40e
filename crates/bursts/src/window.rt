// Windows of w positions that start in one word: the first that holds m ones; and the ones that leave and enter as a window moves on over eight words.
ghost use Rattle.std.specs.Prelude.{◌≡◌, ℕ, ◌+◌, ◌*◌, ◌<◌, ◌≤◌, length};
ghost use Rattle.words.specs.Bits.{bit, bit_at};
ghost use Rattle.words.specs.Handles.{most_bits, words_of};
ghost use Rattle.bursts.specs.Calls.{most_width};
ghost use Rattle.bursts.specs.Working.{Holds, StartIn, StartOf, Following, EightRuns};

use words::{bit_of, ones_of};

// The 64 bits that follow bit u of the word `low`, where `high` is the next word.
pub fn following(low: u64, high: u64, u: usize) -> u64
    requires { u < 64 }
    ensures { Following low high u result }
{
    ((low >> 1) >> u) | (high << (63 - u))
}

// The first of k starts in a word, from its first position on, whose window holds at least m ones: the first window holds c, the bits of x leave, those of e
// enter.
pub fn first_start(x: u64, e: u64, c: usize, m: usize, k: usize) -> Option<usize>
    requires { (k ≤ 64) × (c ≤ most_width) × (m ≤ most_width) }
    ensures { StartOf (bit x) (bit e) c m k result }
{
    let mut have = c;
    let mut need = m;
    for d in 0..k {
        if need <= have {
            return Some(d);
        }
        have += bit_of(e, d) as usize;
        need += bit_of(x, d) as usize;
    }
    None
}

// The same, where the starts are tried only if the ones of the first window and all of e reach m: no window that starts in the word holds more.
pub fn bounded_start(x: u64, e: u64, c: usize, m: usize, k: usize) -> Option<usize>
    requires { (k ≤ 64) × (c ≤ most_width) × (m ≤ most_width) }
    ensures { StartOf (bit x) (bit e) c m k result }
{
    if c + ones_of(e) < m {
        return None;
    }
    first_start(x, e, c, m, k)
}

// The 64 positions past the window that starts with word j: they enter as it moves on by a word.
pub fn entering(words: &[u64], w: usize, j: usize) -> u64
    requires { (1 ≤ w) × (w ≤ most_width) × (j ≤ words_of most_bits) × (64 * (j + 1) + w ≤ 64 * length words.now) }
    ensures { (p : ℕ) → p < 64 → bit result p ≡ bit_at words.now (64 * j + w + p) }
{
    let last = j + (w - 1) / 64;
    following(words[last], words[last + 1], (w - 1) % 64)
}

// The ones of each of the eight words from word j on.
// Kept: beside `entering_ones`: one function for both would take a closure for the word, and its promise would say of it what `EightRuns` says here.
pub fn leaving_ones(words: &[u64], j: usize) -> [usize; 8]
    requires { j + 8 ≤ length words.now }
    ensures { EightRuns words.now (64 * j) result }
{
    let mut counts = [0usize; 8];
    for i in 0..8 {
        counts[i] = ones_of(words[j + i]);
    }
    counts
}

// The ones of each of the eight runs of 64 positions past the window that starts with word j.
pub fn entering_ones(words: &[u64], w: usize, j: usize) -> [usize; 8]
    requires { (1 ≤ w) × (w ≤ most_width) × (j + 8 ≤ words_of most_bits) × (64 * (j + 8) + w ≤ 64 * length words.now) }
    ensures { EightRuns words.now (64 * j + w) result }
{
    let mut counts = [0usize; 8];
    for i in 0..8 {
        counts[i] = ones_of(entering(words, w, j + i));
    }
    counts
}

// The windows of w positions over a list of words, of which one is sought that holds at least m ones.
#[derive(Clone, Copy)]
pub struct Windows<'a> {
    pub words: &'a [u64],
    pub w: usize,
    pub m: usize,
    ghost sized: { (1 ≤ w) × (w ≤ most_width) × (m ≤ most_width) },
}

impl<'a> Windows<'a> {
    // The first start in word j whose window holds at least m ones. That of word j holds c; with the 64 positions past it, `most`: no window that starts in the
    // word holds more. Only where `most` reaches m is the word read here, and its starts tried.
    pub fn start_in_word(self, j: usize, c: usize, most: usize) -> Option<usize>
        requires { (j ≤ words_of most_bits) × (64 * (j + 1) + self.w ≤ 64 * length self.words.now) × Holds self.words.now self.w (64 * j) c
            × Holds self.words.now (self.w + 64) (64 * j) most }
        ensures { StartIn self.entry.words.now self.entry.w self.entry.m (64 * j) (64 * (j + 1)) result }
    {
        if most < self.m {
            return None;
        }
        let d = first_start(
            self.words[j],
            entering(self.words, self.w, j),
            c,
            self.m,
            64,
        )?;
        Some(64 * j + d)
    }
}
