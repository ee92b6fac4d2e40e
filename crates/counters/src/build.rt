// Laying all counters from the words: each word is read once, each counter stored once, and two of each node read for the level above.
ghost use Rattle.std.specs.Prelude.{◌≡◌, ℕ, ◌+◌, ◌*◌, ◌<◌, ◌≤◌, length, slice_index};
ghost use Rattle.words.specs.Bits.{bit_at, ones};
ghost use Rattle.counters.specs.Record.{AllFit};
ghost use Rattle.counters.specs.Working.{most_blocks, TreeOver, node_from, GroupFrom};
ghost use Rattle.counters.specs.Building.{Readable, Ready, child_holds, children_of, NodeBuilt, LevelBuilt};

use super::shape::{CHILDREN, Level, NODE_COUNTERS, above, height_of, node_ones, ones_held};
use words::{block_at, block_ones};

// Kept: words, counters, t and below apart: `build_level` writes counters between two of these reads, so a struct would be made anew for each node.
// The ones of child m of level t + 1, where `below` is level t: of block m, or of node m by its last summary and its last key; 0 for a child that is not there.
fn child_ones(words: &[u64], counters: &[u32], t: usize, below: Level, m: usize) -> u32
    requires { Readable words.now counters.now t below }
    ensures { result ≡ child_holds words.now counters.now t below m }
{
    if below.count <= m {
        return 0;
    }
    if t == 0 {
        return block_ones(block_at(words, m)) as u32;
    }
    (node_ones(counters, below.start + NODE_COUNTERS * m) % 4294967296) as u32
}

// The ones of the 64 children of node j of level t + 1, where `below` is level t.
pub fn children_ones(
    words: &[u64],
    counters: &[u32],
    t: usize,
    below: Level,
    j: usize,
) -> [u32; CHILDREN]
    requires { Readable words.now counters.now t below × (j < most_blocks) }
    ensures { result ≡ children_of (child_holds words.now counters.now t below) j }
{
    let first = CHILDREN * j;
    let mut children = [0u32; CHILDREN];
    for c in 0..CHILDREN {
        children[c] = child_ones(words, counters, t, below, first + c);
    }
    children
}

// Lays the keys of a group of eight children that hold these numbers, and answers the group's sum, modulo 2^32.
fn fill_group(keys: &mut [u32], children: &[u32]) -> u32
    requires { (length keys.old ≡ 8) × (length children.now ≡ 8) }
    ensures { GroupFrom children.now keys.new result }
{
    let mut sum: u32 = 0;
    for (i, &ones) in children.iter().enumerate() {
        sum = sum.wrapping_add(ones);
        keys[i] = sum;
    }
    sum
}

// Lays the counters of a node whose children hold these numbers.
pub fn fill_node(node: &mut [u32], children: [u32; CHILDREN])
    requires { (length node.old ≡ 72) × (length children ≡ 64) }
    ensures { (i : ℕ) → i < 72 → slice_index node.new i ≡ node_from children i }
{
    let mut sum: u32 = 0;
    for g in 0..8 {
        node[g] = sum;
        let c = 8 * g;
        let a = c + 8;
        let e = a + 8;
        let group = fill_group(&mut node[a..e], &children[c..a]);
        sum = sum.wrapping_add(group);
    }
}

// Lays node j of the level that starts at `at`, whose children hold these numbers.
fn build_node(counters: &mut [u32], at: usize, j: usize, children: [u32; CHILDREN])
    requires { (at + 72 * j + 72 ≤ length counters.old) × (length children ≡ 64) }
    ensures { NodeBuilt children at j counters.old counters.new }
{
    let a = at + NODE_COUNTERS * j;
    let e = a + NODE_COUNTERS;
    fill_node(&mut counters[a..e], children);
}

// Lays level t + 1, which is `level`, over level t, which is `below`. What stands from the start of `below` on stays.
fn build_level(words: &[u64], counters: &mut [u32], t: usize, below: Level, level: Level)
    requires { Ready words.now counters.old t below level }
    ensures { LevelBuilt (child_holds words.now counters.old t below) level counters.old counters.new }
{
    let count = level.count;
    for j in 0..count {
        let children = children_ones(words, counters, t, below, j);
        build_node(counters, level.start, j, children);
    }
}

// Lays all counters of a record from its words, whatever they were, and answers the ones of the words.
pub fn build_counters(words: &[u64], counters: &mut [u32], blocks: usize) -> usize
    requires { (length words.now ≡ 8 * blocks) × TreeOver blocks counters.old }
    ensures { (result ≡ ones (bit_at words.now) (512 * blocks)) × AllFit (bit_at words.now) blocks counters.new }
{
    let levels = height_of(blocks);
    let mut level = Level {
        count: blocks,
        start: counters.len(),
    };
    for t in 0..levels {
        let below = level;
        level = above(below);
        build_level(words, counters, t, below, level);
    }
    ones_held(counters, blocks)
}
