// The rows of an image that obeys the layout: their places, their sizes, rows compared, and rows copied.
ghost use Rattle.std.specs.Prelude.{◌≡◌, [], ◌∷◌, ◌+◌, ◌≤◌, length, replicate, None};
ghost use Rattle.std.specs.Option.{option_copied};
ghost use Rattle.words.specs.Bits.{same};
ghost use Rattle.image.specs.Kinds.{kind1};
ghost use Rattle.image.specs.Layout.{head_bytes, most_bytes, most_label, size_of};
ghost use Rattle.image.specs.Chain.{label_at, length_at};
ghost use Rattle.image.specs.Rows.{Obeys};
ghost use Rattle.image.specs.Shelf.{sizes_of, row_of};
ghost use Rattle.merging.specs.Merged.{row_at, rows_of, unequal, conflict};
ghost use Rattle.merging.specs.Working.{next_to, RightRecord, Places, IsPlaced, marked, unmarked, Measured, Copied};

use super::copy::{copy_words, words_equal};
use image::{
    LABEL_OFFSET, LENGTH_OFFSET, MOST_LABEL, UNIT_BYTES, first_record, label_at, length_at,
    next_record, put_le, record_part, record_size,
};

// A place for each label, and one for 0.
pub const PLACES: usize = MOST_LABEL + 1;

// Sets the byte where each label's record starts, in places that are none.
pub fn set_places(image: &[u8], places: &mut [Option<usize>; PLACES])
    requires { Obeys image.now × (places.old ≡ replicate (most_label + 1) None) }
    ensures { Places image.now places.new }
{
    let mut next = first_record(image);
    while let Some(at) = next {
        places[label_at(image, at)] = Some(at);
        next = next_record(image, at);
    }
}

// Whether two right rows have the same length and bits: then their records are the same from the length on.
fn rows_equal(first: &[u8], a: usize, second: &[u8], b: usize) -> bool
    requires { RightRecord first.now a × RightRecord second.now b }
    ensures { result ≡ same (row_at first.now a).bits (row_at second.now b).bits }
{
    let p = record_part(first, a);
    let q = record_part(second, b);
    let size = p.len();
    if q.len() != size {
        return false;
    }
    let words = (size - LENGTH_OFFSET) / 8;
    words_equal(&p[LENGTH_OFFSET..], &q[LENGTH_OFFSET..], words)
}

// An image that obeys the layout, and where the record of each label starts.
#[derive(Clone, Copy)]
pub struct Placed<'a> {
    pub image: &'a [u8],
    pub places: &'a [Option<usize>; PLACES],
}

impl Placed<'_> {
    // Whether this image has a row of the label of the second's record at byte `at`, unequal to that.
    fn row_conflicts(self, second: &[u8], at: usize) -> bool
        requires { IsPlaced self × RightRecord second.now at × (label_at second.now at ≤ most_label) }
        ensures { result ≡ unequal (row_of (label_at second.now at) (rows_of self.entry.image.now)) (row_at second.now at) }
    {
        match self.places[label_at(second, at)] {
            Some(place) => !rows_equal(self.image, place, second, at),
            None => false,
        }
    }

    // Whether a label stands in both images with unequal rows.
    pub fn rows_conflict(self, second: &[u8]) -> bool
        requires { IsPlaced self × Obeys second.now }
        ensures { result ≡ conflict (rows_of self.entry.image.now) (rows_of second.now) }
    {
        let mut next = first_record(second);
        while let Some(at) = next {
            if self.row_conflicts(second, at) {
                return true;
            }
            next = next_record(second, at);
        }
        false
    }
}

// Whether the label of the record at byte `at` is marked: it has a place in the marks.
fn is_marked(image: &[u8], at: usize, marks: Option<&[Option<usize>; PLACES]>) -> bool
    requires { (at + head_bytes ≤ length image.now) × (label_at image.now at ≤ most_label) }
    ensures { result ≡ marked (option_copied marks.entry) (label_at image.now at) }
{
    match marks {
        Some(places) => places[label_at(image, at)].is_some(),
        None => false,
    }
}

// So many rows, and the bytes of their records.
#[derive(Clone, Copy, Debug, PartialEq, Eq, Hash)]
pub struct Extent {
    pub rows: u64,
    pub bytes: usize,
}

// The rows of an image whose label is not marked: how many they are, and the bytes of their records.
pub fn measure(image: &[u8], marks: Option<&[Option<usize>; PLACES]>) -> Extent
    requires { Obeys image.now }
    ensures { Measured kind1 (unmarked (option_copied marks.entry) (rows_of image.now)) result.rows result.bytes }
{
    let mut rows: u64 = 0;
    let mut bytes: usize = 0;
    let mut next = first_record(image);
    while let Some(at) = next {
        if !is_marked(image, at, marks) {
            rows += 1;
            bytes += record_size(length_at(image, at));
        }
        next = next_record(image, at);
    }
    Extent { rows, bytes }
}

// The unit index of a record that starts at byte `at`; 0 where the chain has ended there.
pub fn next_index(at: usize, end: usize) -> usize
    ensures { result ≡ next_to at end }
{
    if at == end { 0 } else { at / UNIT_BYTES }
}

// Copies the record at byte `from` of an image to byte `at` of another whose chain ends at byte `end`: only its next index is new. Answers where it ends.
fn copy_record(image: &[u8], from: usize, out: &mut [u8], at: usize, end: usize) -> usize
    requires { RightRecord image.now from × (at + size_of kind1 (length_at image.now from) ≤ length out.old) × (length out.old ≤ most_bytes) }
    ensures { Copied kind1 out.old at end (row_at image.now from ∷ []) out.new result }
{
    let part = record_part(image, from);
    let after = at + part.len();
    put_le(out, at, 4, next_index(after, end) as u64);
    put_le(out, at + LABEL_OFFSET, 4, label_at(image, from) as u64);
    copy_words(out, at + LENGTH_OFFSET, &part[LENGTH_OFFSET..]);
    after
}

// Copies the records of an image whose label is not marked, one after another from byte `start` on. Answers where they end.
pub fn copy_rows(
    image: &[u8],
    marks: Option<&[Option<usize>; PLACES]>,
    out: &mut [u8],
    start: usize,
    end: usize,
) -> usize
    requires { Obeys image.now × (start + sizes_of kind1 (unmarked (option_copied marks) (rows_of image.now)) ≤ length out.old) ×
        (length out.old ≤ most_bytes) }
    ensures { Copied kind1 out.old start end (unmarked (option_copied marks.entry) (rows_of image.now)) out.new result }
{
    let mut next = first_record(image);
    let mut at = start;
    while let Some(from) = next {
        if !is_marked(image, from, marks) {
            at = copy_record(image, from, out, at, end);
        }
        next = next_record(image, from);
    }
    at
}
