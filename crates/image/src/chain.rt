// The header, and the chain of records.
ghost use Rattle.std.specs.Prelude.{◌≡◌};
ghost use Rattle.image.specs.Chain.{kind_of, sound_header, sound_record};
ghost use Rattle.image.specs.Walk.{scan_of};

use super::bytes::{index_at, u64_at};
use super::fields::{fields_good, first_record, label_at, next_record, record_at, record_end};
use super::layout::{
    HEAD_BYTES, KIND, KIND_OFFSET, MOST_LABEL, UNIT_BYTES, ZEROS_OFFSET, size_good,
};
use words::Refusal;

// What one walk of a sound chain tells: where the index that ends it stands, where its last record ends, and where the label's record starts.
#[derive(Clone, Copy, Debug, PartialEq, Eq, Hash)]
pub struct Scan {
    pub link: usize,
    pub end: usize,
    pub found: Option<usize>,
}

// Whether the image has 16 to 2^32 bytes and its header is right.
pub fn header_sound(image: &[u8]) -> bool
    ensures { result ≡ sound_header image.now }
{
    if !size_good(image.len()) {
        return false;
    }
    if index_at(image, KIND_OFFSET) != KIND {
        return false;
    }
    u64_at(image, ZEROS_OFFSET) == 0
}

// Whether the record at byte `at` lies inside the image, has a label and a length in range, and has no next or one not before its end.
pub fn record_sound(image: &[u8], at: usize) -> bool
    ensures { result ≡ sound_record (kind_of image.now) image.now at }
{
    let n = image.len();
    if n < HEAD_BYTES {
        return false;
    }
    if n - HEAD_BYTES < at {
        return false;
    }
    if !fields_good(image, at) {
        return false;
    }
    let end = record_end(image, at);
    if n < end {
        return false;
    }
    match next_record(image, at) {
        Some(next) => end <= next,
        None => true,
    }
}

// One walk of the whole chain, which reads three numbers of each record: next index, label and length. `met` has a flag for each label met so far. 10 where
// the chain is not sound.
pub fn scan_chain(image: &[u8], label: usize) -> Result<Scan, Refusal>
    ensures { result ≡ scan_of image.now label }
{
    if !header_sound(image) {
        return Err(Refusal::Unsound);
    }
    let mut next = first_record(image);
    let mut met = [false; MOST_LABEL + 1];
    let mut link: usize = 0;
    let mut end = UNIT_BYTES;
    // Kept: a byte, 0 for none yet, and not an Option, whose flag each record would carry on.
    let mut found: usize = 0;
    while let Some(at) = next {
        if !record_sound(image, at) {
            return Err(Refusal::Unsound);
        }
        let here = label_at(image, at);
        if met[here] {
            return Err(Refusal::Unsound);
        }
        met[here] = true;
        if here == label {
            found = at;
        }
        link = at;
        end = record_end(image, at);
        next = next_record(image, at);
    }
    let found = record_at(found);
    Ok(Scan { link, end, found })
}
