// The readings of a row of an image by its label: look, count and find.
ghost use Rattle.std.specs.Prelude.{◌≡◌};
ghost use Rattle.words.specs.Refusals.{told_of};
ghost use Rattle.image.specs.Calls.{row_get_told, RowRanked, RowSelected};

use super::fields::length_at;
use super::open::{record_part, row_start};
use super::part::{part_get, part_rank, part_select};
use words::Refusal;

// row look(i): the bit at position i of the label's row.
pub fn row_get(image: &[u8], label: usize, i: usize) -> Result<u64, Refusal>
    ensures { told_of result ≡ row_get_told image.now label i }
{
    let at = row_start(image, label)?; // a refusal met while opening passes through unchanged
    let part = record_part(image, at);
    part_get(part, length_at(part, 0), i)
}

// row count(v, i): how many of the first i bits of the label's row equal v.
pub fn row_rank(image: &[u8], label: usize, v: u64, i: usize) -> Result<u64, Refusal>
    ensures { RowRanked image.now label v i (told_of result) }
{
    let at = row_start(image, label)?;
    let part = record_part(image, at);
    part_rank(part, length_at(part, 0), v, i)
}

// row find(v, k): the position in the label's row that holds v and has k of v before it.
pub fn row_select(image: &[u8], label: usize, v: u64, k: usize) -> Result<u64, Refusal>
    ensures { RowSelected image.now label v k (told_of result) }
{
    let at = row_start(image, label)?;
    let part = record_part(image, at);
    part_select(part, length_at(part, 0), v, k)
}
