// The calls on an image that a display does not have, and the query of a record's size. A refusal comes as 2^32 plus its number.
ghost use Rattle.std.specs.Prelude.{◌≡◌};
ghost use Rattle.words.specs.Refusals.{coded as coded_of};
ghost use Rattle.words.specs.Handles.{handle};
ghost use Rattle.image.specs.Calls.{clear_outcome, freeze_outcome, record_size_told};
ghost use Rattle.merging.specs.Calls.{merge_outcome};

use super::lent::strip_over;
use image::{clear, freeze, record_bytes};
use merging::merge;
use words::coded;

// clear: the header of an empty chain.
pub fn image_clear(image: &mut [u8]) -> u64
    ensures { (result ≡ coded_of (clear_outcome image.old).told) × (image.new ≡ (clear_outcome image.old).image) }
{
    coded(clear(image))
}

// freeze(label): the strip's record after the last one.
pub fn image_freeze(
    capacity: u64,
    length: u64,
    total: u64,
    words: &[u64],
    image: &mut [u8],
    label: u64,
) -> u64
    ensures { (result ≡ coded_of (freeze_outcome (handle capacity length total) words.now image.old label).told) ×
        (image.new ≡ (freeze_outcome (handle capacity length total) words.now image.old label).image) }
{
    let strip = strip_over(capacity, length, total, words);
    coded(freeze(strip, image, label as usize))
}

// merge: the first image's rows, then those of the second whose label the first lacks, written out over what the third buffer held.
pub fn image_merge(first: &[u8], second: &[u8], third: &mut [u8]) -> u64
    ensures { (result ≡ coded_of (merge_outcome first.now second.now third.old).told) ×
        (third.new ≡ (merge_outcome first.now second.now third.old).image) }
{
    coded(merge(first, second, third))
}

// The bytes of the record of a row of so many bits.
pub fn image_record_size(length: u64) -> u64
    ensures { result ≡ coded_of (record_size_told length) }
{
    coded(record_bytes(length as usize))
}
