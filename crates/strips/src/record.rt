// The calls on a record, words and counters. The readings answer a number, a refusal as 2^32 plus its number. The changes write six numbers to the
// front of `out`: refusal or 0, first value, second value or 0, capacity, length and total of the handle to go on with (0, 0 and 0 where
// create is refused). With a shorter `out` nothing runs.
ghost use Rattle.std.specs.Prelude.{◌≡◌, ◌≤◌, length};
ghost use Rattle.words.specs.Handles.{handle};
ghost use Rattle.counters.specs.Promises.{created_of, changed_of};
ghost use Rattle.counters.specs.Calls.{Ranked, Selected, verify_told, create_outcome, Pushed, Flipped, fill_outcome, truncate_outcome};
ghost use Rattle.words.specs.Refusals.{coded as coded_of, CodedAs};
ghost use Rattle.strips.specs.Exports.{out_numbers, out_with, changed_out, created_out, out_over, lent, reported, Reported};

use super::lent::{handle_over, record_over, write_numbers};
use counters::{Change, create, fill, flip, push, truncate};
use words::{Handle, Refusal, coded};

// count(v, i): how many of the first i bits equal v.
pub fn strip_rank(
    capacity: u64,
    length: u64,
    total: u64,
    words: &[u64],
    counters: &[u32],
    v: u64,
    i: u64,
) -> u64
    ensures { CodedAs (Ranked (handle capacity length total) v i words.now counters.now) result }
{
    coded(record_over(capacity, length, total, words, counters).rank(v, i as usize))
}

// find(v, k): the position that holds v and has k of v before it.
pub fn strip_select(
    capacity: u64,
    length: u64,
    total: u64,
    words: &[u64],
    counters: &[u32],
    v: u64,
    k: u64,
) -> u64
    ensures { CodedAs (Selected (handle capacity length total) v k words.now counters.now) result }
{
    coded(record_over(capacity, length, total, words, counters).select(v, k as usize))
}

// check: the ones held, or 9 where the record does not fit.
pub fn strip_verify(capacity: u64, length: u64, total: u64, words: &[u64], counters: &[u32]) -> u64
    ensures { result ≡ coded_of (verify_told (handle capacity length total) words.now counters.now) }
{
    coded(record_over(capacity, length, total, words, counters).verify())
}

// How many numbers a change writes to `out`.
pub const OUT_NUMBERS: usize = 6;

// Writes the six numbers.
pub fn write_out(out: &mut [u64], refusal: u64, x: u64, y: u64, h: Handle)
    requires { out_numbers ≤ length out.old }
    ensures { out.new ≡ out_over (out_with refusal x y h) out.old }
{
    let numbers = [
        refusal,
        x,
        y,
        h.capacity as u64,
        h.length as u64,
        h.total as u64,
    ];
    write_numbers(out, numbers);
}

// Writes what a change answers that got the handle h.
pub fn write_change(out: &mut [u64], h: Handle, m: Result<Change, Refusal>)
    requires { out_numbers ≤ length out.old }
    ensures { out.new ≡ out_over (changed_out (changed_of h m)) out.old }
{
    match m {
        Ok(c) => write_out(out, 0, c.first, c.second, c.handle),
        Err(r) => write_out(out, u64::from(r), 0, 0, h),
    }
}

// lay(capacity): zeroes words and counters.
pub fn strip_create(capacity: u64, words: &mut [u64], counters: &mut [u32], out: &mut [u64])
    ensures { lent words.new counters.new out.new ≡ reported created_out words.old
        counters.old out.old (create_outcome capacity words.old counters.old) }
{
    if out.len() < OUT_NUMBERS {
        return;
    }
    let m = create(capacity as usize, words, counters).map(|l| Change {
        handle: l.handle,
        first: l.counters,
        second: 0,
    });
    write_change(out, Handle::new(0, 0, 0), m);
}

// add(v): appends v.
pub fn strip_push(
    capacity: u64,
    length: u64,
    total: u64,
    words: &mut [u64],
    counters: &mut [u32],
    v: u64,
    out: &mut [u64],
)
    ensures { Reported (Pushed (handle capacity length total) v words.old counters.old) words.old
        counters.old out.old (lent words.new counters.new out.new) }
{
    if out.len() < OUT_NUMBERS {
        return;
    }
    let h = handle_over(capacity, length, total);
    let m = push(h, words, counters, v);
    write_change(out, h, m);
}

// turn(i): replaces a bit by its opposite.
pub fn strip_flip(
    capacity: u64,
    length: u64,
    total: u64,
    words: &mut [u64],
    counters: &mut [u32],
    i: u64,
    out: &mut [u64],
)
    ensures { Reported (Flipped (handle capacity length total) i words.old counters.old) words.old
        counters.old out.old (lent words.new counters.new out.new) }
{
    if out.len() < OUT_NUMBERS {
        return;
    }
    let h = handle_over(capacity, length, total);
    let m = flip(h, words, counters, i as usize);
    write_change(out, h, m);
}

// run(a, b, v): sets the positions a to b - 1 to v.
pub fn strip_fill(
    capacity: u64,
    length: u64,
    total: u64,
    words: &mut [u64],
    counters: &mut [u32],
    a: u64,
    b: u64,
    v: u64,
    out: &mut [u64],
)
    ensures { lent words.new counters.new out.new ≡ reported changed_out words.old
        counters.old out.old (fill_outcome (handle capacity length total) a b v words.old counters.old) }
{
    if out.len() < OUT_NUMBERS {
        return;
    }
    let h = handle_over(capacity, length, total);
    let m = fill(h, words, counters, a as usize, b as usize, v);
    write_change(out, h, m);
}

// cut(n): keeps the first n.
pub fn strip_truncate(
    capacity: u64,
    length: u64,
    total: u64,
    words: &mut [u64],
    counters: &mut [u32],
    n: u64,
    out: &mut [u64],
)
    ensures { lent words.new counters.new out.new ≡ reported changed_out words.old
        counters.old out.old (truncate_outcome (handle capacity length total) n words.old counters.old) }
{
    if out.len() < OUT_NUMBERS {
        return;
    }
    let h = handle_over(capacity, length, total);
    let m = truncate(h, words, counters, n as usize);
    write_change(out, h, m);
}
