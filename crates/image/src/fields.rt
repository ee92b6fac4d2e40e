// The numbers that a record starts with, by name. A record stands in an image, or at byte 0 of its row's part.
ghost use Rattle.std.specs.Prelude.{◌≡◌, ◌+◌, ◌*◌, ◌^◌, ◌<◌, ◌≤◌, length};
ghost use Rattle.image.specs.Bytes.{num};
ghost use Rattle.image.specs.Layout.{unit_bytes, head_bytes};
ghost use Rattle.image.specs.Chain.{kind_of, next_at, label_at, length_at, ones_at, end_at, good_fields};
ghost use Rattle.image.specs.Walk.{RecordAt};

use super::bytes::index_at;
use super::layout::{
    LABEL_OFFSET, LENGTH_OFFSET, MOST_ROW, ONES_OFFSET, UNIT_BYTES, label_good, record_size,
};

// The record that starts at a byte: none at byte 0, where the header stands.
pub fn record_at(byte: usize) -> Option<usize>
    ensures { RecordAt result byte }
{
    if byte == 0 { None } else { Some(byte) }
}

// The byte where the record starts that follows the one at byte `at`, or the header at byte 0.
pub fn next_record(image: &[u8], at: usize) -> Option<usize>
    requires { at + head_bytes ≤ length image.now }
    ensures { RecordAt result (unit_bytes * next_at image.now at) }
{
    record_at(UNIT_BYTES * index_at(image, at))
}

// The byte where the first record starts.
pub fn first_record(image: &[u8]) -> Option<usize>
    requires { head_bytes ≤ length image.now }
    ensures { RecordAt result (unit_bytes * num image.now 0 4) }
{
    next_record(image, 0)
}

// The label of the record at byte `at`.
pub fn label_at(s: &[u8], at: usize) -> usize
    requires { at + head_bytes ≤ length s.now }
    ensures { (result ≡ label_at s.now at) × (result < 2 ^ 32) }
{
    index_at(s, at + LABEL_OFFSET)
}

// Its length, in bits.
pub fn length_at(s: &[u8], at: usize) -> usize
    requires { at + head_bytes ≤ length s.now }
    ensures { (result ≡ length_at s.now at) × (result < 2 ^ 32) }
{
    index_at(s, at + LENGTH_OFFSET)
}

// Its number of ones.
pub fn ones_at(s: &[u8], at: usize) -> usize
    requires { at + head_bytes ≤ length s.now }
    ensures { (result ≡ ones_at s.now at) × (result < 2 ^ 32) }
{
    index_at(s, at + ONES_OFFSET)
}

// Where it ends, in an image.
pub fn record_end(image: &[u8], at: usize) -> usize
    requires { at + head_bytes ≤ length image.now }
    ensures { result ≡ end_at (kind_of image.now) image.now at }
{
    at + record_size(length_at(image, at))
}

// Whether its label and its length are in range.
pub fn fields_good(s: &[u8], at: usize) -> bool
    requires { at + head_bytes ≤ length s.now }
    ensures { result ≡ good_fields s.now at }
{
    if !label_good(label_at(s, at)) {
        return false;
    }
    length_at(s, at) <= MOST_ROW
}
