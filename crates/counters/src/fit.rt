// Checking all counters against the words: each word is read once, each counter compared once, and two of each node read for the level above.
ghost use Rattle.std.specs.Prelude.{◌≡◌, ℕ, ◌+◌, ◌*◌, ◌<◌, ◌≤◌, length, slice_index};
ghost use Rattle.std.proofs.Math.Option.{none};
ghost use Rattle.words.specs.Bits.{bit_at};
ghost use Rattle.words.specs.Refusals.{judge};
ghost use Rattle.counters.specs.Calls.{checks, fitting};
ghost use Rattle.counters.specs.Record.{AllFit, Fits};
ghost use Rattle.counters.specs.Working.{Decides};
ghost use Rattle.counters.specs.Building.{Ready, child_holds, NodeAt, LevelFrom};

use super::build::{children_ones, fill_node};
use super::shape::{CHILDREN, Level, NODE_COUNTERS, Tree, above, height_of, ones_held};
use words::{BLOCK_BITS, Handle, first_from};

// Whether node j of the level that starts at `at` is as laid for children that hold these numbers.
fn node_fits(counters: &[u32], at: usize, j: usize, children: [u32; CHILDREN]) -> bool
    requires { (at + 72 * j + 72 ≤ length counters.now) × (length children ≡ 64) }
    ensures { Decides result (NodeAt children at j counters.now) }
{
    let mut expected = [0u32; NODE_COUNTERS];
    fill_node(&mut expected[..], children);
    let a = at + NODE_COUNTERS * j;
    let e = a + NODE_COUNTERS;
    counters[a..e] == expected[..]
}

// Whether level t + 1, which is `level`, is as laid over level t, which is `below`.
// Kept: words, counters, t and below apart, as `child_ones` takes them.
fn level_fits(words: &[u64], counters: &[u32], t: usize, below: Level, level: Level) -> bool
    requires { Ready words.now counters.now t below level }
    ensures { Decides result
        (LevelFrom (child_holds words.now counters.now t below) counters.now level.start level.count) }
{
    let count = level.count;
    for j in 0..count {
        let children = children_ones(words, counters, t, below, j);
        if !node_fits(counters, level.start, j, children) {
            return false;
        }
    }
    true
}

impl<'a> Tree<'a> {
    // Whether every counter is as defined for the words.
    fn fits(self) -> bool
        ensures { Decides result (AllFit (bit_at self.entry.words.now) self.entry.blocks self.entry.counters.now) }
    {
        let words = self.words;
        let counters = self.counters;
        let levels = height_of(self.blocks);
        let mut level = Level {
            count: self.blocks,
            start: counters.len(),
        };
        for t in 0..levels {
            let below = level;
            level = above(below);
            if !level_fits(words, counters, t, below, level) {
                return false;
            }
        }
        true
    }
}

// Whether a record that passes the checks fits: no bit stands past the length, every counter is as defined, and the total is the ones held.
pub fn record_fits(h: Handle, words: &[u64], counters: &[u32]) -> bool
    requires { judge (checks h (length words.now) (length counters.now)) ≡ none }
    ensures { (result ≡ fitting h words.now counters.now) × Decides result (Fits h words.now counters.now) }
{
    let blocks = h.capacity / BLOCK_BITS;
    if first_from(words, h.capacity, true, h.length).is_some() {
        return false;
    }
    let tree = Tree {
        blocks,
        words,
        counters,
    };
    if !tree.fits() {
        return false;
    }
    ones_held(counters, blocks) == h.total
}
