// The header of an image, and clearing one.
ghost use Rattle.std.specs.Prelude.{◌≡◌, ◌++◌, ◌≤◌, length, drop};
ghost use Rattle.words.specs.Refusals.{told_of};
ghost use Rattle.image.specs.Kinds.{kind1};
ghost use Rattle.image.specs.Layout.{unit_bytes};
ghost use Rattle.image.specs.Chain.{header_of};
ghost use Rattle.image.specs.Calls.{image_outcome, clear_outcome};

use super::layout::{KIND, KIND_OFFSET, UNIT_BYTES, ZEROS_OFFSET, size_good};
use super::put::{put_le, put_word};
use words::Refusal;

// Writes the header, with the first record's unit index, and no other byte.
pub fn put_header(image: &mut [u8], first: usize)
    requires { unit_bytes ≤ length image.old }
    ensures { image.new ≡ header_of kind1 first ++ drop unit_bytes image.old }
{
    put_le(image, 0, 4, first as u64);
    put_le(image, KIND_OFFSET, 4, KIND as u64);
    put_word(image, ZEROS_OFFSET, 0);
}

// clear: the header of an empty chain, and no other byte.
pub fn clear(image: &mut [u8]) -> Result<u64, Refusal>
    ensures { image_outcome (told_of result) image.new ≡ clear_outcome image.old }
{
    if !size_good(image.len()) {
        return Err(Refusal::NoRoom);
    }
    put_header(image, 0);
    Ok(UNIT_BYTES as u64)
}
