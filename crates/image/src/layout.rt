// The layout of an image: its constants, and the sizes of a record.
ghost use Rattle.std.specs.Prelude.{◌≡◌, ◌^◌, ◌<◌, ◌≤◌};
ghost use Rattle.image.specs.Kinds.{kind1};
ghost use Rattle.image.specs.Layout.{most_row, superblocks_of, bits_start, size_of};
ghost use Rattle.image.specs.Chain.{good_label, good_size};

use words::{BLOCK_BITS, MOST_BITS};

// A unit of the image, in bytes.
pub const UNIT_BYTES: usize = 16;
// The longest image, in bytes.
pub const MOST_BYTES: usize = 1 << 32;
// Where the kind stands in the header, after the first index.
pub const KIND_OFFSET: usize = 4;
// Where its zeros stand.
pub const ZEROS_OFFSET: usize = 8;
// The highest label.
pub const MOST_LABEL: usize = 64;
// The longest row, in bits: that of the largest capacity.
pub const MOST_ROW: usize = MOST_BITS;
// The bytes of the four numbers that a record starts with.
pub const HEAD_BYTES: usize = 16;
// Where the label stands in a record, after the next index.
pub const LABEL_OFFSET: usize = 4;
// Where the length in bits stands.
pub const LENGTH_OFFSET: usize = 8;
// Where the number of ones stands.
pub const ONES_OFFSET: usize = 12;
// The bytes of a block's bits.
pub const BLOCK_BYTES: usize = BLOCK_BITS / 8;

// The one kind of image: its number.
pub const KIND: usize = 1;
// The bits of a superblock.
pub const SUPERBLOCK_BITS: usize = 4096;
// The bytes of an entry.
pub const ENTRY_BYTES: usize = 16;
// The blocks of a superblock.
pub const SUPERBLOCK_BLOCKS: usize = SUPERBLOCK_BITS / BLOCK_BITS;
// The last of them, counted from 0.
pub const LAST_BLOCK: usize = SUPERBLOCK_BLOCKS - 1;
// The halvings of a search over them.
pub const BLOCK_HALVINGS: usize = 3;
// The halvings of a search over the superblocks of the longest row.
pub const SUPERBLOCK_HALVINGS: usize = 15;
// The words of a superblock's bits.
pub const SUPERBLOCK_WORDS: usize = SUPERBLOCK_BITS / 64;
// Their bytes.
pub const SUPERBLOCK_BYTES: usize = SUPERBLOCK_BITS / 8;

// Whether an image may have so many bytes.
pub fn size_good(bytes: usize) -> bool
    ensures { result ≡ good_size bytes }
{
    if bytes < UNIT_BYTES {
        return false;
    }
    bytes <= MOST_BYTES
}

// Whether a label is from 1 to the highest.
pub fn label_good(label: usize) -> bool
    ensures { result ≡ good_label label }
{
    if label < 1 {
        return false;
    }
    label <= MOST_LABEL
}

// The superblocks of n bits.
pub fn superblocks_of(n: usize) -> usize
    requires { n < 2 ^ 32 }
    ensures { (result ≡ superblocks_of kind1 n) × (result ≤ superblocks_of kind1 (2 ^ 32)) }
{
    (n + (SUPERBLOCK_BITS - 1)) / SUPERBLOCK_BITS
}

// Where the bits start in a record of n bits.
pub fn bits_start(n: usize) -> usize
    requires { n ≤ most_row }
    ensures { (result ≡ bits_start kind1 n) × (result ≤ bits_start kind1 most_row) }
{
    HEAD_BYTES + ENTRY_BYTES * superblocks_of(n)
}

// The size of a record of n bits.
pub fn record_size(n: usize) -> usize
    requires { n < 2 ^ 32 }
    ensures { result ≡ size_of kind1 n }
{
    HEAD_BYTES + (ENTRY_BYTES + SUPERBLOCK_BYTES) * superblocks_of(n)
}
