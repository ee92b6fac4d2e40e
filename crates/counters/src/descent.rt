// Finding the k-th v: sixteen counter reads a level, then at most eight words and one word select.
ghost use Rattle.std.specs.Prelude.{◌≡◌, ℕ, ◌+◌, ◌*◌, ◌<◌, ◌≤◌, length};
ghost use Rattle.words.specs.Strip.{as_bit};
ghost use Rattle.counters.specs.Tree.{nodes, child_bits};
ghost use Rattle.counters.specs.Working.{most_blocks};
ghost use Rattle.counters.specs.Descent.{most_child_bits, ValueCount, PartWith, LeftAfter, ChildWith, BlockWith, PositionOf};

use super::shape::{CHILDREN, Level, NODE_COUNTERS, Tree, height_of, parents, wide};
use words::{BLOCK_BITS, block_at, block_select};

// Where a search stands: in which child or block, and how many v of it to pass.
#[derive(Clone, Copy, Debug, PartialEq, Eq, Hash)]
struct Spot {
    index: usize,
    left: u32,
}

// The nodes of level t, for t at most 2; at level 0 the blocks.
fn nodes_of(blocks: usize, t: usize) -> usize
    requires { (blocks ≤ most_blocks) × (t ≤ 2) }
    ensures { result ≡ nodes blocks t }
{
    if t == 0 {
        return blocks;
    }
    let nodes = parents(blocks);
    if t == 1 {
        return nodes;
    }
    parents(nodes)
}

// The bits of a child at level t.
fn child_bits(t: usize) -> u32
    requires { (1 ≤ t) × (t ≤ 3) }
    ensures { (result ≡ child_bits t) × (result ≤ most_child_bits) }
{
    let block = BLOCK_BITS as u32;
    let children = CHILDREN as u32;
    if t == 1 {
        return block;
    }
    if t == 2 {
        return children * block;
    }
    children * children * block
}

// The v among so many bits, of which x are ones.
fn value_count(v: bool, bits: u32, x: u32) -> u32
    ensures { (n : ℕ) → ValueCount (as_bit v) bits x n → result ≡ n }
{
    if v { x } else { bits.wrapping_sub(x) }
}

// Which of eight parts of `size` bits holds the k-th v, by the seven counters from place `from` on, which give the ones in the first 1, 2, .. 7 parts:
// the number of those that give at most k of v.
fn part_with(counters: &[u32], from: usize, size: u32, v: bool, k: u32) -> usize
    requires { (from + 7 ≤ length counters.now) × (size ≤ 8 * most_child_bits) }
    ensures { PartWith (as_bit v) size counters.now from k result }
{
    let mut bits: u32 = 0;
    let mut count: u32 = 0;
    for &x in &counters[from..from + 7] {
        bits += size;
        if value_count(v, bits, x) <= k {
            count += 1;
        }
    }
    count as usize
}

// k less the v in the first `index` of those parts, by the last of their counters. It is read again, by its place, so that the loop of `part_with` carries no
// counter's value along. Where there is none, the counter before `from` is read and its value not used: the read waits for no test.
fn left_after(counters: &[u32], from: usize, size: u32, v: bool, k: u32, index: usize) -> u32
    requires { (1 ≤ from) × (from + 7 ≤ length counters.now) × (size ≤ 8 * most_child_bits) × (index ≤ 7) }
    ensures { LeftAfter (as_bit v) size counters.now from k index result }
{
    let last = value_count(v, size * index as u32, counters[from + index - 1]);
    if index == 0 {
        return k;
    }
    k.wrapping_sub(last)
}

// The child with the k-th v of the node whose counters stand from place `at` on, by its summaries, then by the keys of a group.
fn child_with(counters: &[u32], at: usize, size: u32, v: bool, k: u32) -> Spot
    requires { (at + 72 ≤ length counters.now) × (size ≤ most_child_bits) }
    ensures { ChildWith (as_bit v) size counters.now at k result.index result.left }
{
    let group = part_with(counters, at + 1, 8 * size, v, k);
    let left = left_after(counters, at + 1, 8 * size, v, k, group);
    let c = 8 * group;
    let key = part_with(counters, at + 8 + c, size, v, left);
    Spot {
        index: c + key,
        left: left_after(counters, at + 8 + c, size, v, left, key),
    }
}

impl<'a> Tree<'a> {
    // The block with the k-th v, from the root down; none where the counters lead past the blocks.
    fn descend(self, v: bool, k: u32) -> Option<Spot>
        ensures { BlockWith self.entry.blocks (as_bit v) self.entry.counters.now k result }
    {
        let mut level = Level { count: 1, start: 0 };
        let mut spot = Spot { index: 0, left: k };
        for t in (0..height_of(self.blocks)).rev() {
            let at = level.start + NODE_COUNTERS * spot.index;
            let child = child_with(self.counters, at, child_bits(t + 1), v, spot.left);
            level = Level {
                count: nodes_of(self.blocks, t),
                start: level.start + NODE_COUNTERS * level.count,
            };
            spot = Spot {
                index: CHILDREN * spot.index + child.index,
                left: child.left,
            };
            if level.count <= spot.index {
                return None;
            }
        }
        Some(spot)
    }

    // The position of the k-th v; none where the counters lead nowhere.
    pub fn select_position(self, v: bool, k: usize) -> Option<usize>
        requires { k < 512 * self.blocks }
        ensures { PositionOf self.entry.blocks (as_bit v) self.entry.words.now self.entry.counters.now k result }
    {
        let spot = self.descend(v, k as u32)?;
        let p = block_select(block_at(self.words, spot.index), v, wide(spot.left));
        if p == BLOCK_BITS {
            return None;
        }
        Some(BLOCK_BITS * spot.index + p)
    }
}
