// The inspection of an image.
ghost use Rattle.std.specs.Prelude.{◌≡◌, true};
ghost use Rattle.words.specs.Refusals.{told_of};
ghost use Rattle.image.specs.Chain.{chain_of};
ghost use Rattle.image.specs.Calls.{is_some, inspect_told};

use super::chain::scan_chain;
use super::fields::{first_record, length_at, next_record};
use super::open::record_part;
use super::right::part_right;
use words::Refusal;

// The number of rows of a sound chain; 15 at the first wrong row.
fn count_rows(image: &[u8]) -> Result<u64, Refusal>
    requires { is_some (chain_of image.now) ≡ true }
    ensures { told_of result ≡ inspect_told image.now }
{
    let mut next = first_record(image);
    let mut count: u64 = 0;
    while let Some(at) = next {
        let part = record_part(image, at);
        if !part_right(part, length_at(part, 0)) {
            return Err(Refusal::WrongRow);
        }
        count += 1;
        next = next_record(image, at);
    }
    Ok(count)
}

// inspect: the number of rows; 10 where the chain is not sound, before 15 where some row is wrong.
pub fn inspect(image: &[u8]) -> Result<u64, Refusal>
    ensures { told_of result ≡ inspect_told image.now }
{
    scan_chain(image, 0)?;
    count_rows(image)
}
