// Whether a row is right: its padding, its entries and its ones. Each byte of its bits is counted once.
ghost use Rattle.std.specs.Prelude.{◌≡◌, true, ◌+◌, ◌≤◌, length, eqb};
ghost use Rattle.image.specs.Bytes.{num, bit_from};
ghost use Rattle.image.specs.Kinds.{kind1};
ghost use Rattle.image.specs.Entry.{EntryFits, entry_from};
ghost use Rattle.image.specs.Layout.{superblock_bytes};
ghost use Rattle.image.specs.Rows.{right_part};
ghost use Rattle.image.specs.Calls.{good_part};
ghost use Rattle.image.specs.Writing.{BlockCounts};

use super::bytes::u64_at;
use super::fields::ones_at;
use super::layout::{
    BLOCK_BYTES, ENTRY_BYTES, HEAD_BYTES, LAST_BLOCK, SUPERBLOCK_BLOCKS, SUPERBLOCK_BYTES,
    bits_start, superblocks_of,
};
use super::reading::{Record, block_at};
use super::write::entry_halves;
use words::block_ones;

// The ones up to the end of each of the blocks of the superblock from byte `at` on.
fn block_counts(part: &[u8], at: usize) -> [usize; SUPERBLOCK_BLOCKS]
    requires { at + superblock_bytes kind1 ≤ length part.now }
    ensures { BlockCounts kind1 (bit_from part.now at) result }
{
    let mut counts = [0usize; SUPERBLOCK_BLOCKS];
    let mut sum: usize = 0;
    for j in 0..SUPERBLOCK_BLOCKS {
        let block = block_at(part, at + BLOCK_BYTES * j);
        sum += block_ones(&block);
        counts[j] = sum;
    }
    counts
}

// Whether the entry from byte `at` on is the one with `before` ones before its superblock and these up to the end of each of its blocks.
fn entry_right(part: &[u8], at: usize, before: usize, counts: [usize; SUPERBLOCK_BLOCKS]) -> bool
    requires { (at + kind1.entry_bytes ≤ length part.now) × EntryFits before counts }
    ensures { result ≡ eqb (num part.now at kind1.entry_bytes) (entry_from before counts) }
{
    let halves = entry_halves(before, counts);
    if u64_at(part, at) != halves.low {
        return false;
    }
    u64_at(part, at + 8) == halves.high
}

// Whether a row's ones, entries and padding are right.
pub fn part_right(part: &[u8], n: usize) -> bool
    requires { good_part kind1 part.now n ≡ true }
    ensures { result ≡ right_part kind1 part.now n }
{
    if !Record::new(part, n).padding_zero() {
        return false;
    }
    let start = bits_start(n);
    let mut sum: usize = 0;
    for e in 0..superblocks_of(n) {
        let counts = block_counts(part, start + SUPERBLOCK_BYTES * e);
        if !entry_right(part, HEAD_BYTES + ENTRY_BYTES * e, sum, counts) {
            return false;
        }
        sum += counts[LAST_BLOCK];
    }
    ones_at(part, 0) == sum
}
