// Opening a row, the calls on a row's part, and those on an opened row. A refusal comes as 2^32 plus its number.
ghost use Rattle.std.specs.Prelude.{◌≡◌};
ghost use Rattle.words.specs.Refusals.{told_of, coded as coded_of, CodedAs};
ghost use Rattle.image.specs.Kinds.{kind1};
ghost use Rattle.image.specs.Calls.{open_told, part_get_told, PartRanked, PartSelected, row_get_told, RowRanked, RowSelected};

use image::{Row, open_row, part_get, part_rank, part_select};
use words::{Refusal, coded};

// Opening: the byte where the label's record starts.
pub fn image_open(image: &[u8], label: u64) -> u64
    ensures { result ≡ coded_of (open_told image.now label) }
{
    coded(open_row(image, label as usize))
}

// look(i) on a row's part and a held length.
pub fn image_part_get(part: &[u8], n: u64, i: u64) -> u64
    ensures { result ≡ coded_of (part_get_told kind1 part.now n i) }
{
    coded(part_get(part, n as usize, i as usize))
}

// count(v, i) on a row's part and a held length.
pub fn image_part_rank(part: &[u8], n: u64, v: u64, i: u64) -> u64
    ensures { CodedAs (PartRanked kind1 part.now n v i) result }
{
    coded(part_rank(part, n as usize, v, i as usize))
}

// find(v, k) on a row's part and a held length.
pub fn image_part_select(part: &[u8], n: u64, v: u64, k: u64) -> u64
    ensures { CodedAs (PartSelected kind1 part.now n v k) result }
{
    coded(part_select(part, n as usize, v, k as usize))
}

// Opening a row, then look(i) on it; a refusal of the opening passes through unchanged.
fn opened_get(image: &[u8], label: usize, i: usize) -> Result<u64, Refusal>
    ensures { told_of result ≡ row_get_told image.now label i }
{
    open_row(image, label)?;
    Row::open(image, label).get(i)
}

// Opening a row, then count(v, i) on it.
fn opened_rank(image: &[u8], label: usize, v: u64, i: usize) -> Result<u64, Refusal>
    ensures { RowRanked image.now label v i (told_of result) }
{
    open_row(image, label)?;
    Row::open(image, label).rank(v, i)
}

// Opening a row, then find(v, k) on it.
fn opened_select(image: &[u8], label: usize, v: u64, k: usize) -> Result<u64, Refusal>
    ensures { RowSelected image.now label v k (told_of result) }
{
    open_row(image, label)?;
    Row::open(image, label).select(v, k)
}

// look(i) on the row of a label, opened first.
pub fn image_opened_get(image: &[u8], label: u64, i: u64) -> u64
    ensures { result ≡ coded_of (row_get_told image.now label i) }
{
    coded(opened_get(image, label as usize, i as usize))
}

// count(v, i) on the row of a label, opened first.
pub fn image_opened_rank(image: &[u8], label: u64, v: u64, i: u64) -> u64
    ensures { CodedAs (RowRanked image.now label v i) result }
{
    coded(opened_rank(image, label as usize, v, i as usize))
}

// find(v, k) on the row of a label, opened first.
pub fn image_opened_select(image: &[u8], label: u64, v: u64, k: u64) -> u64
    ensures { CodedAs (RowSelected image.now label v k) result }
{
    coded(opened_select(image, label as usize, v, k as usize))
}
