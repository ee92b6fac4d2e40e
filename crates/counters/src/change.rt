// The calls that lay or change a record. A refusal changes no word and no counter, and the handle that the call got still holds.
// Kept: handle, words and counters apart: a struct that lends both to be written would take a clause for each buffer, in each call, that its reference stays.
ghost use Rattle.std.specs.Prelude.{◌≡◌, ◌-◌, ◌*◌, ◌^◌, ◌≤◌, length, if◌then◌else◌, nat_eq};
ghost use Rattle.words.specs.Handles.{most_bits};
ghost use Rattle.words.specs.Strip.{strip_of};
ghost use Rattle.counters.specs.Tree.{blocks_of};
ghost use Rattle.counters.specs.Working.{TreeOver};
ghost use Rattle.counters.specs.Promises.{changed_of, created_of, done, outcome};
ghost use Rattle.counters.specs.Calls.{relaid, create_outcome, Pushed, Flipped, fill_outcome, truncate_outcome};

use super::answer::{Change, Laid};
use super::build::build_counters;
use super::check::{check_fill, check_flip, check_push, check_record, check_truncate, moved_total};
use super::path::move_path;
use words::{BLOCK_BITS, Handle, Refusal, flip_position, put_position, put_positions};

// lay(capacity): zeroes words and counters, and answers the number of counters.
pub fn create(capacity: usize, words: &mut [u64], counters: &mut [u32]) -> Result<Laid, Refusal>
    ensures { outcome (created_of result) words.new counters.new ≡ create_outcome capacity words.old counters.old }
{
    let h = Handle::new(capacity, 0, 0);
    check_record(h, words.len(), counters.len())?;
    words.fill(0);
    counters.fill(0);
    Ok(Laid {
        handle: h,
        counters: counters.len() as u64,
    })
}

// add(v): appends v, adds it to the total, and answers the position and the number of counters changed.
pub fn push(h: Handle, words: &mut [u64], counters: &mut [u32], v: u64) -> Result<Change, Refusal>
    ensures { Pushed h v words.old counters.old (outcome (changed_of h result) words.new counters.new) }
{
    check_push(h, words.len(), counters.len(), v)?;
    let p = h.length;
    put_position(words, p, v == 1);
    let number = if v == 1 {
        move_path(counters, h.capacity / BLOCK_BITS, p, 1)
    } else {
        0
    };
    Ok(Change {
        handle: Handle::new(h.capacity, p + 1, h.total + v as usize),
        first: p as u64,
        second: number as u64,
    })
}

// What a counter moves by where a bit became b: up by one, or down by one modulo 2^32.
fn step_to(b: u64) -> u32
    requires { b ≤ 1 }
    ensures { result ≡ (if nat_eq b 1 then 1 else 2 ^ 32 - 1) }
{
    (2 * b as u32).wrapping_sub(1)
}

// turn(i): replaces a bit by its opposite, moves the total, and answers the new bit and the number of counters changed.
pub fn flip(h: Handle, words: &mut [u64], counters: &mut [u32], i: usize) -> Result<Change, Refusal>
    ensures { Flipped h i words.old counters.old (outcome (changed_of h result) words.new counters.new) }
{
    check_flip(h, words, counters.len(), i)?;
    let b = flip_position(words, i);
    let total = moved_total(h, b);
    let changed = move_path(counters, h.capacity / BLOCK_BITS, i, step_to(b));
    Ok(Change {
        handle: Handle::new(h.capacity, h.length, total),
        first: b,
        second: changed as u64,
    })
}

// Zeroes the bits from n on and lays all counters; the ones that the words then hold are the total and the answer.
fn rebuild(words: &mut [u64], counters: &mut [u32], capacity: usize, n: usize) -> Change
    requires { (n ≤ capacity) × (capacity ≤ most_bits) × (capacity ≡ 512 * blocks_of capacity) × (length words.old ≡ 8 * blocks_of capacity)
        × TreeOver (blocks_of capacity) counters.old }
    ensures { outcome (done result.handle result.first result.second) words.new counters.new ≡ relaid capacity (strip_of words.old n) }
{
    put_positions(words, n, capacity, false);
    let ones = build_counters(words, counters, capacity / BLOCK_BITS);
    Change {
        handle: Handle::new(capacity, n, ones),
        first: ones as u64,
        second: 0,
    }
}

// run(a, b, v): sets the positions a to b - 1 to v, zeroes the bits past the length, lays all counters and the total, and answers the ones held.
pub fn fill(
    h: Handle,
    words: &mut [u64],
    counters: &mut [u32],
    a: usize,
    b: usize,
    v: u64,
) -> Result<Change, Refusal>
    ensures { outcome (changed_of h result) words.new counters.new ≡ fill_outcome h a b v words.old counters.old }
{
    check_fill(h, words.len(), counters.len(), a, b, v)?;
    put_positions(words, a, b, v == 1);
    Ok(rebuild(words, counters, h.capacity, h.length))
}

// cut(n): keeps the first n, zeroes the bits past them, lays all counters and the total, and answers the ones held.
pub fn truncate(
    h: Handle,
    words: &mut [u64],
    counters: &mut [u32],
    n: usize,
) -> Result<Change, Refusal>
    ensures { outcome (changed_of h result) words.new counters.new ≡ truncate_outcome h n words.old counters.old }
{
    check_truncate(h, words.len(), counters.len(), n)?;
    Ok(rebuild(words, counters, h.capacity, n))
}
