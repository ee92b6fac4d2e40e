// Opening a row by its label.
ghost use Rattle.std.specs.Prelude.{◌≡◌, ◌+◌, ◌≤◌, length};
ghost use Rattle.words.specs.Refusals.{told_of};
ghost use Rattle.image.specs.Layout.{head_bytes};
ghost use Rattle.image.specs.Chain.{kind_of, end_at};
ghost use Rattle.image.specs.Rows.{part_at};
ghost use Rattle.image.specs.Calls.{open_told, open_part, held_length};

use super::chain::scan_chain;
use super::fields::{length_at, record_end};
use super::layout::{HEAD_BYTES, label_good};
use words::Refusal;

// The byte where the label's record starts.
pub fn row_start(image: &[u8], label: usize) -> Result<usize, Refusal>
    ensures { told_of result ≡ open_told image.now label }
{
    let scan = scan_chain(image, label)?;
    if !label_good(label) {
        return Err(Refusal::BadLabel);
    }
    scan.found.ok_or(Refusal::LabelAbsent)
}

// The same, as the answer of a call.
pub fn open_row(image: &[u8], label: usize) -> Result<u64, Refusal>
    ensures { told_of result ≡ open_told image.now label }
{
    Ok(row_start(image, label)? as u64)
}

// The part of the image that the record at byte `at` takes.
pub fn record_part(image: &[u8], at: usize) -> &[u8]
    requires { (at + head_bytes ≤ length image.now) × (end_at (kind_of image.now) image.now at ≤ length image.now) }
    ensures { result.now ≡ part_at (kind_of image.now) image.now at }
{
    let end = record_end(image, at);
    &image[at..end]
}

// The row's own part of the image, from its record's start to its end; empty where the opening is refused.
// Kept: an empty part, and not a Result: Calls.open_part promises it.
pub fn row_part(image: &[u8], label: usize) -> &[u8]
    ensures { result.now ≡ open_part image.now label }
{
    match row_start(image, label) {
        Ok(at) => record_part(image, at),
        Err(_) => &image[..0],
    }
}

// The length that a row's part gives; 0 for a part too short for a record.
// Kept: 0, and not None: Calls.held_length promises it.
pub fn held_length(part: &[u8]) -> usize
    ensures { result ≡ held_length part.now }
{
    if part.len() < HEAD_BYTES {
        return 0;
    }
    length_at(part, 0)
}
