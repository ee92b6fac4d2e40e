// Counting before a position: two counters a level, then at most eight words.
ghost use Rattle.std.specs.Prelude.{◌≡◌, ℕ, ◌+◌, ◌*◌, ◌<◌, ◌≤◌, length};
ghost use Rattle.words.specs.Bits.{bit_at, ones};
ghost use Rattle.counters.specs.Record.{AllFit};
ghost use Rattle.counters.specs.Working.{most_pair, Node};

use super::shape::{NODE_COUNTERS, Tree, from_block, height_of, up, wide};
use words::{BLOCK_BITS, block_at, block_rank};

// The ones in the first c children of a node: the summary of c's group, and the key before c unless c starts the group.
fn before_child(node: &[u32], c: usize) -> usize
    requires { (length node.now ≡ 72) × (c < 64) }
    ensures { (result ≤ most_pair) × ((B : ℕ → ℕ) (j : ℕ) → Node B j node.now → result + B (64 * j) ≡ B (64 * j + c)) }
{
    let g = c / 8;
    let s = wide(node[g]);
    let y = wide(node[7 + c]);
    if c % 8 == 0 { s } else { s + y }
}

impl<'a> Tree<'a> {
    // The ones in the blocks before a block, by the counters: level by level from the lowest.
    fn ones_before_block(self, block: usize) -> usize
        requires { block < self.blocks }
        ensures { (result ≤ 3 * most_pair)
            × ((f : ℕ → ℕ) → AllFit f self.entry.blocks self.entry.counters.now → result ≡ ones f (512 * block)) }
    {
        let counters = self.counters;
        let levels = height_of(self.blocks);
        let mut climb = from_block(self.blocks, counters.len(), block);
        let mut sum: usize = 0;
        for t in 0..levels {
            let rise = up(climb);
            climb = rise.climb;
            let a = rise.at;
            let e = a + NODE_COUNTERS;
            sum += before_child(&counters[a..e], rise.slot);
        }
        sum
    }

    // The ones before position i, which is at most the capacity: those before the block of position i - 1, and those in it.
    pub fn ones_before(self, i: usize) -> usize
        requires { i ≤ 512 * self.blocks }
        ensures { (result ≤ 3 * most_pair + 512)
            × (AllFit (bit_at self.entry.words.now) self.entry.blocks self.entry.counters.now → result ≡ ones (bit_at self.entry.words.now) i) }
    {
        if i == 0 {
            return 0;
        }
        let b = (i - 1) / BLOCK_BITS;
        self.ones_before_block(b) + block_rank(block_at(self.words, b), i - BLOCK_BITS * b)
    }
}
