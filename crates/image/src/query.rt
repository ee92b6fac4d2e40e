// The queries about the size of a record, and about the rows of an image: their lengths and labels.
ghost use Rattle.std.specs.Prelude.{◌≡◌, true};
ghost use Rattle.words.specs.Refusals.{told_of};
ghost use Rattle.image.specs.Chain.{chain_of};
ghost use Rattle.image.specs.Calls.{is_some, record_size_told, row_length_told, row_label_told};

use super::chain::scan_chain;
use super::fields::{first_record, label_at, length_at, next_record};
use super::layout::{MOST_ROW, record_size};
use super::open::row_start;
use words::Refusal;

// The bytes of the record of a row of n bits.
pub fn record_bytes(n: usize) -> Result<u64, Refusal>
    ensures { told_of result ≡ record_size_told n }
{
    if MOST_ROW < n {
        return Err(Refusal::Position);
    }
    Ok(record_size(n) as u64)
}

// The length of the label's row, in bits.
pub fn row_length(image: &[u8], label: usize) -> Result<u64, Refusal>
    ensures { told_of result ≡ row_length_told image.now label }
{
    let at = row_start(image, label)?;
    Ok(length_at(image, at) as u64)
}

// The label of the k-th record of a sound chain; 14 where the chain ends before it.
fn nth_label(image: &[u8], k: usize) -> Result<u64, Refusal>
    requires { is_some (chain_of image.now) ≡ true }
    ensures { told_of result ≡ row_label_told image.now k }
{
    let mut next = first_record(image);
    let mut left = k;
    while let Some(at) = next {
        if left == 0 {
            return Ok(label_at(image, at) as u64);
        }
        left -= 1;
        next = next_record(image, at);
    }
    Err(Refusal::LabelAbsent)
}

// The label of the k-th row in the chain's order: 10 where the chain is not sound, 14 where k is not below the number of rows.
pub fn row_label(image: &[u8], k: usize) -> Result<u64, Refusal>
    ensures { told_of result ≡ row_label_told image.now k }
{
    scan_chain(image, 0)?;
    nth_label(image, k)
}
