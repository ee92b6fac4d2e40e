// What the numbers and buffers of a call make: a handle, a strip, a record; and numbers written to the front of a buffer.
ghost use Rattle.std.specs.Prelude.{◌≡◌, ◌≤◌, length};
ghost use Rattle.words.specs.Handles.{handle};
ghost use Rattle.strips.specs.Exports.{numbers_over};

use counters::Record;
use words::{Handle, Strip};

// The handle of these numbers.
pub fn handle_over(capacity: u64, length: u64, total: u64) -> Handle
    ensures { result ≡ handle capacity length total }
{
    Handle::new(capacity as usize, length as usize, total as usize)
}

// The strip of these numbers in these words.
pub fn strip_over(capacity: u64, length: u64, total: u64, words: &[u64]) -> Strip<'_>
    ensures { (result.handle ≡ handle capacity length total) × (result.words ≡ words.entry) }
{
    Strip::new(handle_over(capacity, length, total), words)
}

// The record of these numbers in these words and counters.
pub fn record_over<'a>(
    capacity: u64,
    length: u64,
    total: u64,
    words: &'a [u64],
    counters: &'a [u32],
) -> Record<'a>
    ensures { (result.strip.handle ≡ handle capacity length total) × (result.strip.words ≡ words.entry) × (result.counters ≡ counters.entry) }
{
    Record::new(handle_over(capacity, length, total), words, counters)
}

// Writes these numbers to the front of `out`.
pub fn write_numbers<const N: usize>(out: &mut [u64], numbers: [u64; N])
    requires { N ≤ length out.old }
    ensures { out.new ≡ numbers_over N numbers.entry out.old }
{
    out[..N].copy_from_slice(&numbers);
}
