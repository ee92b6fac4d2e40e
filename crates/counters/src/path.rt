// Moving the counters that count a stroke, each by one: d is 1, or 2^32 - 1 to count down.
ghost use Rattle.std.specs.Prelude.{◌≡◌, ℕ, ◌+◌, ◌-◌, ◌*◌, ◌/◌, ◌%◌, ◌^◌, ◌<◌, length, slice_index};
ghost use Rattle.counters.specs.Tree.{change_count};
ghost use Rattle.counters.specs.Working.{TreeOver, Steps, NodeMoved, PathMovedBy};

use super::shape::{NODE_COUNTERS, from_block, height_of, up};
use words::BLOCK_BITS;

// Adds to each of eight numbers its step, modulo 2^32.
fn add_each(lanes: &mut [u32], steps: &[u32])
    requires { (length lanes.old ≡ 8) × (length steps.now ≡ 8) }
    ensures { (i : ℕ) → i < 8 → slice_index lanes.new i ≡ (slice_index lanes.old i + slice_index steps.now i) % 2 ^ 32 }
{
    for (i, &step) in steps.iter().enumerate() {
        lanes[i] = lanes[i].wrapping_add(step);
    }
}

// Adds d to the counters of a node that count its child c, the summaries past c's group and the keys of its group from c on, and answers their number.
// `steps` is eight zeros, then eight times d: the eight of them from number 8 - k on are 0 for the first k counters, d for the others. The keys take theirs
// from the steps past the first, so that both offsets are 7 less an octal digit of c, which takes fewer instructions than 8 less the digit.
fn move_node(node: &mut [u32], steps: &[u32], c: usize) -> usize
    requires { (length node.old ≡ 72) × (length steps.now ≡ 16) × (c < 64) }
    ensures { (result ≡ 15 - c % 8 - c / 8) × ((d : ℕ) → Steps 8 d steps.now → NodeMoved c d node.old node.new) }
{
    let g = c / 8;
    let summary_offset = 7 - g;
    let summary_end = summary_offset + 8;
    add_each(&mut node[0..8], &steps[summary_offset..summary_end]);
    let a = 8 + 8 * g;
    let e = a + 8;
    let key_offset = 7 - c % 8;
    let key_end = key_offset + 8;
    let later = &steps[1..16];
    add_each(&mut node[a..e], &later[key_offset..key_end]);
    summary_offset + key_offset + 1
}

// Adds d to the counters that count stroke p, level by level from the lowest, and answers their number. One node at a time is lent on.
// Kept: counters and blocks apart, since a `Tree` lends its counters to be read alone; one that lends them to be written would serve this call and `build_counters`.
pub fn move_path(counters: &mut [u32], blocks: usize, p: usize, d: u32) -> usize
    requires { TreeOver blocks counters.old × (p < 512 * blocks) }
    ensures { (result ≡ change_count blocks p) × PathMovedBy blocks p d counters.old counters.new }
{
    let levels = height_of(blocks);
    let mut climb = from_block(blocks, counters.len(), p / BLOCK_BITS);
    let mut number: usize = 0;
    let steps = [0u32, 0, 0, 0, 0, 0, 0, 0, d, d, d, d, d, d, d, d];
    for t in 0..levels {
        let rise = up(climb);
        climb = rise.climb;
        let a = rise.at;
        let e = a + NODE_COUNTERS;
        number += move_node(&mut counters[a..e], &steps, rise.slot);
    }
    number
}
