// Reading the part of a row of n bits: entries, then at most 64 bytes of bits.
ghost use Rattle.std.specs.Prelude.{◌≡◌, ℕ, ◌+◌, ◌-◌, ◌*◌, ◌/◌, ◌^◌, ◌<◌, ◌≤◌, length};
ghost use Rattle.words.specs.Bits.{bit_at, ones};
ghost use Rattle.words.specs.Strip.{as_bit, cell};
ghost use Rattle.words.specs.Working.{at_most};
ghost use Rattle.words.specs.Handles.{block_bits};
ghost use Rattle.image.specs.Bytes.{bit_from};
ghost use Rattle.image.specs.Kinds.{kind1};
ghost use Rattle.image.specs.Entry.{block_field, entry_ones, entry_values};
ghost use Rattle.image.specs.Layout.{head_bytes, most_row, superblock_blocks, bits_start, size_of};
ghost use Rattle.image.specs.Rows.{row_bits, Right};
ghost use Rattle.image.specs.Reading.{HasEntry, Halved, PositionIn, PaddingZero};
ghost use Rattle.counters.specs.Working.{Decides};

use super::bytes::{byte_at, u64_at};
use super::layout::{
    BLOCK_BYTES, BLOCK_HALVINGS, ENTRY_BYTES, HEAD_BYTES, LAST_BLOCK, SUPERBLOCK_BLOCKS,
    SUPERBLOCK_HALVINGS, SUPERBLOCK_WORDS, bits_start, superblocks_of,
};
use words::{BLOCK_BITS, bit_of, block_rank, block_select, of_value};

// How many values a field of an entry has: 44 bits for the ones before its superblock, 12 for those of the superblock before one of its blocks.
const SUPERBLOCK_FIELD: u64 = 1 << 44;

const BLOCK_FIELD: u64 = 1 << 12;

// The part of a row of n bits: it has the size of its record.
#[derive(Clone, Copy)]
pub struct Record<'a> {
    part: &'a [u8],
    n: usize,
    ghost sized: { (length part.now ≡ size_of kind1 n) × (n ≤ most_row) },
}

// Of an entry in two halves, the ones of its superblock before block j: 0 for block 0, else the 12 bits from bit 32 + 12 j on. For blocks 0 to 4 they stand
// from bit 12 j on in the word that has the entry from bit 44 on above 12 zeros; for the others in the high half.
fn block_field(low: u64, high: u64, j: usize) -> u64
    requires { j < superblock_blocks kind1 }
    ensures { (result ≡ block_field (low + 2 ^ 64 * high) j) × (result < 2 ^ 12) }
{
    if j < 5 {
        return ((((low >> 44) << 12) + (high << 32)) >> (12 * j)) % BLOCK_FIELD;
    }
    (high >> (12 * j - 32)) % BLOCK_FIELD
}

// The ones before block m, as the entry of its superblock says.
fn entry_ones(part: &[u8], m: usize) -> usize
    requires { HasEntry kind1 part.now (m / superblock_blocks kind1) }
    ensures { (result ≡ entry_ones part.now m) × (result < 2 ^ 44 + 2 ^ 12) }
{
    let at = HEAD_BYTES + ENTRY_BYTES * (m / SUPERBLOCK_BLOCKS);
    let low = u64_at(part, at);
    let high = u64_at(part, at + 8);
    (low % SUPERBLOCK_FIELD + block_field(low, high, m % SUPERBLOCK_BLOCKS)) as usize
}

// The 512 bits from byte `at` on, as eight words.
pub fn block_at(part: &[u8], at: usize) -> [u64; 8]
    requires { at + 64 ≤ length part.now }
    ensures { (length result ≡ 8) × ((p : ℕ) → p < 512 → bit_at result p ≡ bit_from part.now at p) }
{
    let mut block = [0u64; 8];
    for j in 0..8 {
        block[j] = u64_at(part, at + 8 * j);
    }
    block
}

// The number of v before block m, as the entries say.
fn entry_values(part: &[u8], v: bool, m: usize) -> usize
    requires { HasEntry kind1 part.now (m / superblock_blocks kind1) × (block_bits * m < most_row) }
    ensures { result ≡ entry_values part.now (as_bit v) m }
{
    of_value(v as u64, BLOCK_BITS * m, entry_ones(part, m))
}

// 1 where at most k of v come before block m, as the entries say, else 0.
// Kept: a number, and not a bool, so that no branch depends on it.
fn reached(part: &[u8], v: bool, m: usize, k: usize) -> usize
    requires { HasEntry kind1 part.now (m / superblock_blocks kind1) × (block_bits * m < most_row) }
    ensures { result ≡ at_most (entry_values part.now (as_bit v)) k m }
{
    (entry_values(part, v, m) <= k) as usize
}

// Of `count` places of STEP blocks each the one with the k-th v, as the entries say: a binary search by steps of powers of two, down to 1, among the
// 2^HALVINGS places from `from` on.
fn place_with<const STEP: usize, const HALVINGS: usize>(
    part: &[u8],
    from: usize,
    count: usize,
    v: bool,
    k: usize,
) -> usize
    requires { (HALVINGS ≤ 15) × (from < count) × (count ≤ most_row) × Halved (λ b. entry_values part.now (as_bit v) (STEP * b)) count k from (from + 2 ^ HALVINGS) ×
        ((b : ℕ) → b < count → HasEntry kind1 part.now (STEP * b / superblock_blocks kind1) × (block_bits * (STEP * b) < most_row)) }
    ensures { (result < count) × Halved (λ b. entry_values part.now (as_bit v) (STEP * b)) count k result (result + 1) }
{
    let mut lo = from;
    for t in (0..HALVINGS).rev() {
        let mid = lo + (1usize << t);
        if mid < count {
            lo += reached(part, v, STEP * mid, k) << t;
        }
    }
    lo
}

// Of `count` blocks the one with the k-th v: in the superblock with it.
fn block_with(part: &[u8], count: usize, v: bool, k: usize) -> usize
    requires { (0 < count) × (block_bits * count ≤ most_row) ×
        (head_bytes + kind1.entry_bytes * ((count + (superblock_blocks kind1 - 1)) / superblock_blocks kind1) ≤ length part.now) }
    ensures { (result < count) × Halved (entry_values part.now (as_bit v)) count k result (result + 1) }
{
    let superblocks = (count + LAST_BLOCK) / SUPERBLOCK_BLOCKS;
    let e = place_with::<SUPERBLOCK_BLOCKS, SUPERBLOCK_HALVINGS>(part, 0, superblocks, v, k);
    place_with::<1, BLOCK_HALVINGS>(part, SUPERBLOCK_BLOCKS * e, count, v, k)
}

impl<'a> Record<'a> {
    pub fn new(part: &'a [u8], n: usize) -> Record<'a>
        requires { (length part.now ≡ size_of kind1 n) × (n ≤ most_row) }
        ensures { (result.part ≡ part.entry) × (result.n ≡ n) }
    {
        Record { part, n }
    }

    // Bit i of the row.
    pub fn bit(self, i: usize) -> u64
        requires { i < self.n }
        ensures { result ≡ bit_from self.entry.part.now (bits_start kind1 self.entry.n) i }
    {
        bit_of(byte_at(self.part, bits_start(self.n) + i / 8), i % 8)
    }

    // The ones of the row before position i: those before the block of position i - 1, and those of the block before i.
    pub fn ones_before(self, i: usize) -> usize
        requires { i ≤ self.n }
        ensures { (result ≤ 2 ^ 46) × (Right kind1 self.entry.part.now self.entry.n → result ≡ ones (cell (row_bits kind1 self.entry.part.now self.entry.n)) i) }
    {
        if i == 0 {
            return 0;
        }
        let part = self.part;
        let m = (i - 1) / BLOCK_BITS;
        let block = block_at(part, bits_start(self.n) + BLOCK_BYTES * m);
        entry_ones(part, m) + block_rank(&block, i - BLOCK_BITS * m)
    }

    // The position of the k-th v of the row, k from 0; none where the entries lead to none.
    pub fn position(self, v: bool, k: usize) -> Option<usize>
        requires { 0 < self.n }
        ensures { PositionIn kind1 self.entry.part.now self.entry.n (as_bit v) k result }
    {
        let part = self.part;
        let n = self.n;
        let m = block_with(part, (n + (BLOCK_BITS - 1)) / BLOCK_BITS, v, k);
        let said = entry_values(part, v, m);
        if k < said {
            return None;
        }
        let block = block_at(part, bits_start(n) + BLOCK_BYTES * m);
        let p = block_select(&block, v, k - said);
        if p == BLOCK_BITS {
            return None;
        }
        let position = BLOCK_BITS * m + p;
        if position < n { Some(position) } else { None }
    }

    // Whether the row's bits from position n on are zero, to the end of its last superblock: those of the word that position n parts, then a word at a time.
    pub fn padding_zero(self) -> bool
        ensures { Decides result (PaddingZero kind1 self.entry.part.now self.entry.n) }
    {
        let part = self.part;
        let n = self.n;
        let start = bits_start(n);
        let end = SUPERBLOCK_WORDS * superblocks_of(n);
        let first = n / 64;
        if first == end {
            return true;
        }
        if u64_at(part, start + 8 * first) >> (n % 64) != 0 {
            return false;
        }
        for w in first + 1..end {
            if u64_at(part, start + 8 * w) != 0 {
                return false;
            }
        }
        true
    }
}
