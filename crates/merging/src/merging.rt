// The merge of two images.
ghost use Rattle.std.specs.Prelude.{◌≡◌, ◌+◌, ◌≤◌, length};
ghost use Rattle.words.specs.Refusals.{told_of};
ghost use Rattle.image.specs.Kinds.{kind1};
ghost use Rattle.image.specs.Layout.{unit_bytes, most_bytes};
ghost use Rattle.image.specs.Rows.{Obeys};
ghost use Rattle.image.specs.Shelf.{sizes_of, written};
ghost use Rattle.image.specs.Calls.{image_outcome};
ghost use Rattle.merging.specs.Calls.{merged_rows, merge_outcome};
ghost use Rattle.merging.specs.Working.{IsPlaced};

use super::rows::{PLACES, Placed, copy_rows, measure, next_index, set_places};
use image::{UNIT_BYTES, inspect, put_header, size_good};
use words::Refusal;

// Writes the merged rows of two images: the header, the first's rows, and those of the second whose label the first lacks. `end` is where the last
// record ends.
fn write_rows(first: Placed, second: &[u8], third: &mut [u8], end: usize)
    requires { IsPlaced first × Obeys second.now ×
        (end ≡ unit_bytes + sizes_of kind1 (merged_rows first.image.now second.now)) × (end ≤ length third.old) × (length third.old ≤ most_bytes) }
    ensures { third.new ≡ written kind1 (merged_rows first.entry.image.now second.now) third.old }
{
    put_header(third, next_index(UNIT_BYTES, end));
    let at = copy_rows(first.image, None, third, UNIT_BYTES, end);
    copy_rows(second, Some(first.places), third, at, end);
}

// The merge of two images that obey the layout: 18, 13.
fn merge_rows(first: &[u8], second: &[u8], third: &mut [u8]) -> Result<u64, Refusal>
    requires { Obeys first.now × Obeys second.now }
    ensures { image_outcome (told_of result) third.new ≡ merge_outcome first.now second.now third.old }
{
    let mut places = [None; PLACES];
    set_places(first, &mut places);
    let first = Placed {
        image: first,
        places: &places,
    };
    if first.rows_conflict(second) {
        return Err(Refusal::Conflict);
    }
    let own = measure(first.image, None);
    let more = measure(second, Some(first.places));
    let end = UNIT_BYTES + own.bytes + more.bytes;
    if !size_good(third.len()) {
        return Err(Refusal::NoRoom);
    }
    if third.len() < end {
        return Err(Refusal::NoRoom);
    }
    write_rows(first, second, third, end);
    Ok(own.rows + more.rows)
}

// merge: the first image's rows, then those of the second whose label the first lacks. The first image's 10, 15; the second's; 18; 13.
pub fn merge(first: &[u8], second: &[u8], third: &mut [u8]) -> Result<u64, Refusal>
    ensures { image_outcome (told_of result) third.new ≡ merge_outcome first.now second.now third.old }
{
    inspect(first)?;
    inspect(second)?;
    merge_rows(first, second, third)
}
