// The listing of an image: a line for each row.
ghost use Rattle.std.specs.Prelude.{◌≡◌, ◌+◌, ◌≤◌, length};
ghost use Rattle.words.specs.Refusals.{number_of};
ghost use Rattle.image.specs.Layout.{head_bytes};
ghost use Rattle.image.specs.Rows.{Obeys};
ghost use Rattle.image.specs.Calls.{records_of};
ghost use Rattle.listing.specs.Text.{row_line, rows_text, refused_line, too_long_line, text_of, text_bytes, written_of, outcome, listing_outcome};
ghost use Rattle.listing.specs.Working.{Put};

use super::number::put_ended;
use image::{
    MOST_LABEL, first_record, inspect, label_at, length_at, next_record, ones_at, put_bytes,
};
use words::Refusal;

// The longest image that is listed, in bytes.
pub const MOST_LISTED: usize = 65536;
// The longest line of a row: two digits, nine and nine, and a byte after each.
pub const LINE_BYTES: usize = 23;
// Room for any text.
pub const TEXT_BYTES: usize = MOST_LABEL * LINE_BYTES;

// The line of the record at byte `at` of the image, from byte `end` of `out` on; answers where it ends.
fn put_line(image: &[u8], at: usize, out: &mut [u8], end: usize) -> usize
    requires { (at + head_bytes ≤ length image.now) × (end + length (row_line image.now at) ≤ length out.old) }
    ensures { Put out.old end (row_line image.now at) out.new result }
{
    let label_end = put_ended(out, end, label_at(image, at) as u64, b' ');
    let length_end = put_ended(out, label_end, length_at(image, at) as u64, b' ');
    put_ended(out, length_end, ones_at(image, at) as u64, b'\n')
}

// The lines of all rows, in chain order; answers where they end.
fn put_rows(image: &[u8], out: &mut [u8]) -> usize
    requires { Obeys image.now × (text_bytes ≤ length out.old) }
    ensures { Put out.old 0 (rows_text image.now (records_of image.now)) out.new result }
{
    let mut next = first_record(image);
    let mut end: usize = 0;
    while let Some(at) = next {
        end = put_line(image, at, out, end);
        next = next_record(image, at);
    }
    end
}

// `refused` and the number.
fn put_refused(out: &mut [u8], r: Refusal) -> usize
    requires { text_bytes ≤ length out.old }
    ensures { Put out.old 0 (refused_line (number_of r)) out.new result }
{
    let word = b"refused ";
    put_bytes(out, 0, word);
    put_ended(out, word.len(), u64::from(r), b'\n')
}

// `too long`.
fn put_too_long(out: &mut [u8]) -> usize
    requires { text_bytes ≤ length out.old }
    ensures { Put out.old 0 too_long_line out.new result }
{
    let line = b"too long\n";
    put_bytes(out, 0, line);
    line.len()
}

// The text of the image, from byte 0 of `out` on; answers its length.
fn put_text(image: &[u8], out: &mut [u8]) -> usize
    requires { text_bytes ≤ length out.old }
    ensures { Put out.old 0 (text_of image.now) out.new result }
{
    if MOST_LISTED < image.len() {
        return put_too_long(out);
    }
    match inspect(image) {
        Ok(_) => put_rows(image, out),
        Err(r) => put_refused(out, r),
    }
}

// The text of the image into a lent buffer, of which every other byte stays: so many bytes, or none where the buffer is too short for the longest text.
pub fn write_rows(image: &[u8], out: &mut [u8]) -> Option<usize>
    ensures { outcome (written_of result) out.new ≡ listing_outcome image.now out.old }
{
    if out.len() < TEXT_BYTES {
        return None;
    }
    Some(put_text(image, out))
}
