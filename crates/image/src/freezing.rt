// Freezing a strip into an image.
ghost use Rattle.std.specs.Prelude.{◌≡◌, ◌≤◌};
ghost use Rattle.words.specs.Refusals.{told_of};
ghost use Rattle.image.specs.Layout.{most_bytes};
ghost use Rattle.image.specs.Calls.{image_outcome, freeze_outcome};
ghost use Rattle.image.specs.Writing.{place_told, new_place, freeze_place};

use super::chain::scan_chain;
use super::layout::{UNIT_BYTES, label_good, record_size};
use super::put::put_le;
use super::write::write_record;
use words::{Handle, Refusal, Strip, UNTAKEN, check_strip};

// Where a new record starts, and where the index that ends the chain stands.
#[derive(Clone, Copy, Debug, PartialEq, Eq, Hash)]
pub struct Place {
    pub link: usize,
    pub start: usize,
}

// The place of a new record of `size` bytes: 10, 11, 12, 13.
fn new_place(image: &[u8], label: usize, size: usize) -> Result<Place, Refusal>
    requires { size ≤ most_bytes }
    ensures { place_told result ≡ new_place image.now label size }
{
    let scan = scan_chain(image, label)?;
    if !label_good(label) {
        return Err(Refusal::BadLabel);
    }
    if scan.found.is_some() {
        return Err(Refusal::LabelPresent);
    }
    if image.len() < scan.end + size {
        return Err(Refusal::NoRoom);
    }
    Ok(Place {
        link: scan.link,
        start: scan.end,
    })
}

// The place of the record of a strip: 1, 2, 10, 11, 12, 13.
fn check_freeze(h: Handle, words: usize, image: &[u8], label: usize) -> Result<Place, Refusal>
    ensures { place_told result ≡ freeze_place h words image.now label }
{
    check_strip(h, words, UNTAKEN)?;
    new_place(image, label, record_size(h.length))
}

// freeze(label): the record of the strip after the last one, its unit index in place of the zero that ended the chain, and no other byte.
pub fn freeze(strip: Strip, image: &mut [u8], label: usize) -> Result<u64, Refusal>
    ensures { image_outcome (told_of result) image.new ≡ freeze_outcome strip.entry.handle strip.entry.words.now image.old label }
{
    let h = strip.handle;
    let words = strip.words;
    let place = check_freeze(h, words.len(), image, label)?;
    let index = (place.start / UNIT_BYTES) as u64;
    put_le(image, place.link, 4, index);
    write_record(image, place.start, words, h.length, label);
    Ok(index)
}
