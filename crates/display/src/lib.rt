// What a bench display calls on an image: inspect, the three row readings, and the queries of its rows. A refusal comes as 2^32 plus its number.
#![tactic(auto)]

ghost use Rattle.std.specs.Prelude.{◌≡◌};
ghost use Rattle.words.specs.Refusals.{coded as coded_of, CodedAs};
ghost use Rattle.image.specs.Calls.{inspect_told, row_get_told, RowRanked, RowSelected, row_length_told, row_label_told};

use image::{inspect, row_get, row_label, row_length, row_rank, row_select};
use words::coded;

// Open to users, all of them: no `requires`, and a promise for every input.

// inspect: the number of rows.
pub fn image_inspect(image: &[u8]) -> u64
    ensures { result ≡ coded_of (inspect_told image.now) }
{
    coded(inspect(image))
}

// row count(v, i): how many of the first i bits of the label's row equal v.
pub fn image_row_rank(image: &[u8], label: u64, v: u64, i: u64) -> u64
    ensures { CodedAs (RowRanked image.now label v i) result }
{
    coded(row_rank(image, label as usize, v, i as usize))
}

// row find(v, k): the position in the label's row that holds v and has k of v before it.
pub fn image_row_select(image: &[u8], label: u64, v: u64, k: u64) -> u64
    ensures { CodedAs (RowSelected image.now label v k) result }
{
    coded(row_select(image, label as usize, v, k as usize))
}

// row look(i): the bit at position i of the label's row.
pub fn image_row_get(image: &[u8], label: u64, i: u64) -> u64
    ensures { result ≡ coded_of (row_get_told image.now label i) }
{
    coded(row_get(image, label as usize, i as usize))
}

// The length of the label's row, in bits.
pub fn image_row_length(image: &[u8], label: u64) -> u64
    ensures { result ≡ coded_of (row_length_told image.now label) }
{
    coded(row_length(image, label as usize))
}

// The label of the k-th row, in chain order.
pub fn image_row_label(image: &[u8], k: u64) -> u64
    ensures { result ≡ coded_of (row_label_told image.now k) }
{
    coded(row_label(image, k as usize))
}
