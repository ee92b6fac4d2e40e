// Writing the record of a strip.
ghost use Rattle.std.specs.Prelude.{◌≡◌, ℕ, ◌+◌, ◌*◌, ◌^◌, ◌<◌, ◌≤◌, length, get_or};
ghost use Rattle.std.proofs.lemmas.List.Edits.{sets};
ghost use Rattle.words.specs.Bits.{bit, bit_at};
ghost use Rattle.words.specs.Handles.{block_bits};
ghost use Rattle.words.specs.Strip.{cell, strip_of};
ghost use Rattle.image.specs.Kinds.{kind1};
ghost use Rattle.image.specs.Entry.{EntryFits, entry_from, HalvesOf};
ghost use Rattle.image.specs.Layout.{superblock_bytes, block_bytes, most_bytes, most_row, superblocks_of, entries_bytes, record_of, size_of};
ghost use Rattle.image.specs.Writing.{superblock_cells, block_cells, TargetFits};
ghost use Rattle.image.specs.Writing.{BitsPut, CountedPut, SuperblockPut, RowPut};

use super::layout::{
    BLOCK_BYTES, ENTRY_BYTES, HEAD_BYTES, LABEL_OFFSET, LAST_BLOCK, LENGTH_OFFSET, ONES_OFFSET,
    SUPERBLOCK_BLOCKS, SUPERBLOCK_BYTES, bits_start, superblocks_of,
};
use super::put::{put_le, put_word};
use words::{BLOCK_BITS, block_at, low_mask, ones_of};

// Word w of the first n bits of the words, zero past them.
fn strip_word(words: &[u64], w: usize, n: usize) -> u64
    requires { (n ≤ 64 * length words.now) × (64 * w < most_row) }
    ensures { (p : ℕ) → p < 64 → bit result p ≡ cell (strip_of words.now n) (64 * w + p) }
{
    if n <= 64 * w {
        return 0;
    }
    let left = n - 64 * w;
    if left < 64 {
        return words[w] & low_mask(left);
    }
    words[w]
}

// Stores a block of eight words from byte `at` on. Answers its ones. The words come by value: no store lies between their reads.
fn put_block(bytes: &mut [u8], at: usize, block: [u64; 8]) -> usize
    requires { at + block_bytes ≤ length bytes.old }
    ensures { BitsPut (bit_at block) block_bytes at bytes.old bytes.new result }
{
    let mut sum: usize = 0;
    for j in 0..8 {
        let x = block[j];
        put_word(bytes, at + 8 * j, x);
        sum += ones_of(x);
    }
    sum
}

// Stores a block of zeros from byte `at` on.
fn put_zero_block(bytes: &mut [u8], at: usize)
    requires { at + block_bytes ≤ length bytes.old }
    ensures { BitsPut (λ p. 0) block_bytes at bytes.old bytes.new 0 }
{
    bytes[at..at + BLOCK_BYTES].fill(0);
}

// Stores block b of the first n bits of the words, zero past them, word by word, from byte `at` on. Answers its ones.
// Kept: beside `put_block`, with which the compiler would join it (docs/DECISIONS.md, The image).
fn put_cut_block(bytes: &mut [u8], at: usize, words: &[u64], b: usize, n: usize) -> usize
    requires { (at + block_bytes ≤ length bytes.old) × (n ≤ 64 * length words.now) × (block_bits * b + block_bits ≤ most_row) }
    ensures { BitsPut (block_cells (strip_of words.now n) b) block_bytes at bytes.old bytes.new result }
{
    let mut sum: usize = 0;
    for j in 0..8 {
        let x = strip_word(words, 8 * b + j, n);
        put_word(bytes, at + 8 * j, x);
        sum += ones_of(x);
    }
    sum
}

// The same. Only a block in which the bits end goes word by word.
fn put_strip_block(bytes: &mut [u8], at: usize, words: &[u64], b: usize, n: usize) -> usize
    requires { (at + block_bytes ≤ length bytes.old) × (n ≤ 64 * length words.now) × (block_bits * b + block_bits ≤ most_row) }
    ensures { BitsPut (block_cells (strip_of words.now n) b) block_bytes at bytes.old bytes.new result }
{
    if BLOCK_BITS * b + BLOCK_BITS <= n {
        return put_block(bytes, at, *block_at(words, b));
    }
    if n <= BLOCK_BITS * b {
        put_zero_block(bytes, at);
        return 0;
    }
    put_cut_block(bytes, at, words, b, n)
}

// Stores the bits of superblock e of the first n bits of the words, from byte `at` on. Answers the ones up to the end of each of its blocks.
fn put_superblock(
    bytes: &mut [u8],
    at: usize,
    words: &[u64],
    n: usize,
    e: usize,
) -> [usize; SUPERBLOCK_BLOCKS]
    requires { (at + superblock_bytes kind1 ≤ length bytes.old) × (n ≤ 64 * length words.now) × (kind1.superblock_bits * e < most_row) }
    ensures { CountedPut kind1 (superblock_cells kind1 (strip_of words.now n) e) at bytes.old bytes.new result }
{
    let mut counts = [0usize; SUPERBLOCK_BLOCKS];
    let mut sum: usize = 0;
    for j in 0..SUPERBLOCK_BLOCKS {
        let b = SUPERBLOCK_BLOCKS * e + j;
        sum += put_strip_block(bytes, at + BLOCK_BYTES * j, words, b, n);
        counts[j] = sum;
    }
    counts
}

// An entry as two words, the low one first.
#[derive(Clone, Copy, Debug, PartialEq, Eq, Hash)]
pub struct Halves {
    pub low: u64,
    pub high: u64,
}

// An entry: from bit 0 on the ones before its superblock, from bit 44 on seven counts of 12 bits each, the ones up to the end of each of its blocks but the
// last. The second count starts at bit 56: the low half has its low 8 bits, where the shift drops the others, and the high half has the others.
pub fn entry_halves(before: usize, counts: [usize; SUPERBLOCK_BLOCKS]) -> Halves
    requires { EntryFits before counts }
    ensures { HalvesOf (entry_from before counts) result.low result.high }
{
    let low = before + (counts[0] << 44) + (counts[1] << 56);
    let high = (counts[1] >> 8)
        + (counts[2] << 4)
        + (counts[3] << 16)
        + (counts[4] << 28)
        + (counts[5] << 40)
        + (counts[6] << 52);
    Halves {
        low: low as u64,
        high: high as u64,
    }
}

// Where a superblock goes: its entry from byte `entry` on, its bits from byte `bits` on. `before` ones lie before it.
#[derive(Clone, Copy, Debug, PartialEq, Eq, Hash)]
pub struct Target {
    pub entry: usize,
    pub bits: usize,
    pub before: usize,
}

// Writes superblock e of the first n bits of the words: its bits, counted as they are stored, then its entry. Answers the ones up to its end.
fn write_superblock(image: &mut [u8], to: Target, words: &[u64], n: usize, e: usize) -> usize
    requires { TargetFits kind1 to image.old × (n ≤ 64 * length words.now) × (kind1.superblock_bits * e < most_row) }
    ensures { SuperblockPut kind1 (superblock_cells kind1 (strip_of words.now n) e) to image.old image.new result }
{
    let counts = put_superblock(image, to.bits, words, n, e);
    let halves = entry_halves(to.before, counts);
    put_word(image, to.entry, halves.low);
    put_word(image, to.entry + 8, halves.high);
    to.before + counts[LAST_BLOCK]
}

// Writes the first n bits of the words, their entries from byte a on and their bits from byte b on. Answers their ones.
fn write_superblocks(image: &mut [u8], a: usize, b: usize, words: &[u64], n: usize) -> usize
    requires { (b ≡ a + entries_bytes kind1 n) × (b + superblock_bytes kind1 * superblocks_of kind1 n ≤ length image.old) ×
        (n ≤ 64 * length words.now) × (n ≤ most_row) }
    ensures { RowPut kind1 (cell (strip_of words.now n)) (superblocks_of kind1 n) a b image.old image.new result }
{
    let mut sum: usize = 0;
    for e in 0..superblocks_of(n) {
        let entry = a + ENTRY_BYTES * e;
        let bits = b + SUPERBLOCK_BYTES * e;
        let to = Target {
            entry,
            bits,
            before: sum,
        };
        sum = write_superblock(image, to, words, n, e);
    }
    sum
}

// Writes the record of the first n bits of the words, as the last of a chain, from byte `at` on.
pub fn write_record(image: &mut [u8], at: usize, words: &[u64], n: usize, label: usize)
    requires { (at + size_of kind1 n ≤ length image.old) × (n ≤ 64 * length words.now) × (n ≤ most_row) × (label < 2 ^ 32) ×
        (length image.old ≤ most_bytes) }
    ensures { image.new ≡ sets image.old at (record_of kind1 0 label (strip_of words.now n)) }
{
    let sum = write_superblocks(image, at + HEAD_BYTES, at + bits_start(n), words, n);
    put_le(image, at, 4, 0);
    put_le(image, at + LABEL_OFFSET, 4, label as u64);
    put_le(image, at + LENGTH_OFFSET, 4, n as u64);
    put_le(image, at + ONES_OFFSET, 4, sum as u64);
}
