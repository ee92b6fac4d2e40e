// The calls on an image, and the queries of sizes and rows.
ghost use Rattle.std.specs.Prelude.{◌≡◌};
ghost use Rattle.words.specs.Refusals.{coded as coded_of, CodedAs};
ghost use Rattle.words.specs.Handles.{handle};
ghost use Rattle.image.specs.Calls.{clear_outcome, freeze_outcome, inspect_told, row_get_told, RowRanked, RowSelected, record_size_told, row_length_told, row_label_told};
ghost use Rattle.merging.specs.Calls.{merge_outcome};

// clear: the header of an empty chain.
#[unsafe(no_mangle)]
pub extern "C" fn image_clear(image: &mut [u8]) -> u64
    ensures { (result ≡ coded_of (clear_outcome image.old).told) × (image.new ≡ (clear_outcome image.old).image) }
{
    strips::image_clear(image)
}

// freeze(label): the strip's record after the last one.
#[unsafe(no_mangle)]
pub extern "C" fn image_freeze(
    capacity: u64,
    length: u64,
    total: u64,
    words: &[u64],
    image: &mut [u8],
    label: u64,
) -> u64
    ensures { (result ≡ coded_of (freeze_outcome (handle capacity length total) words.now image.old label).told) ×
        (image.new ≡ (freeze_outcome (handle capacity length total) words.now image.old label).image) }
{
    strips::image_freeze(capacity, length, total, words, image, label)
}

// inspect: the number of rows.
#[unsafe(no_mangle)]
pub extern "C" fn image_inspect(image: &[u8]) -> u64
    ensures { result ≡ coded_of (inspect_told image.now) }
{
    strips::image_inspect(image)
}

// merge: the first image's rows, then those of the second whose label the first lacks, written out over what the third buffer held.
#[unsafe(no_mangle)]
pub extern "C" fn image_merge(first: &[u8], second: &[u8], third: &mut [u8]) -> u64
    ensures { (result ≡ coded_of (merge_outcome first.now second.now third.old).told) ×
        (third.new ≡ (merge_outcome first.now second.now third.old).image) }
{
    strips::image_merge(first, second, third)
}

// row count(v, i): how many of the first i bits of the label's row equal v.
#[unsafe(no_mangle)]
pub extern "C" fn image_row_rank(image: &[u8], label: u64, v: u64, i: u64) -> u64
    ensures { CodedAs (RowRanked image.now label v i) result }
{
    strips::image_row_rank(image, label, v, i)
}

// row find(v, k): the position in the label's row that holds v and has k of v before it.
#[unsafe(no_mangle)]
pub extern "C" fn image_row_select(image: &[u8], label: u64, v: u64, k: u64) -> u64
    ensures { CodedAs (RowSelected image.now label v k) result }
{
    strips::image_row_select(image, label, v, k)
}

// row look(i): the bit at position i of the label's row.
#[unsafe(no_mangle)]
pub extern "C" fn image_row_get(image: &[u8], label: u64, i: u64) -> u64
    ensures { result ≡ coded_of (row_get_told image.now label i) }
{
    strips::image_row_get(image, label, i)
}

// The bytes of the record of a row of so many bits.
#[unsafe(no_mangle)]
pub extern "C" fn image_record_size(length: u64) -> u64
    ensures { result ≡ coded_of (record_size_told length) }
{
    strips::image_record_size(length)
}

// The length of the label's row, in bits.
#[unsafe(no_mangle)]
pub extern "C" fn image_row_length(image: &[u8], label: u64) -> u64
    ensures { result ≡ coded_of (row_length_told image.now label) }
{
    strips::image_row_length(image, label)
}

// The label of the k-th row, in chain order.
#[unsafe(no_mangle)]
pub extern "C" fn image_row_label(image: &[u8], k: u64) -> u64
    ensures { result ≡ coded_of (row_label_told image.now k) }
{
    strips::image_row_label(image, k)
}
