// The checks of the calls over words and counters.
ghost use Rattle.std.specs.Prelude.{◌≡◌, ◌-◌, ◌*◌, ◌<◌, ◌≤◌, false, length, nat_lt};
ghost use Rattle.words.specs.Bits.{bit_at};
ghost use Rattle.words.specs.Refusals.{judge, verdict_of};
ghost use Rattle.words.specs.Handles.{most_bits};
ghost use Rattle.counters.specs.Calls.{checks, push_table, total_line, move_table, turned_handle, fill_table, truncate_table, rank_table, select_table};

use super::shape::counter_count;
use words::{Handle, Refusal, bit_of, check_below, check_strip, check_value, of_value};

// 1, 2, 3; `words` and `counters` are the numbers of words and counters lent.
pub fn check_record(h: Handle, words: usize, counters: usize) -> Result<(), Refusal>
    ensures { verdict_of result ≡ judge (checks h words counters) }
{
    check_strip(h, words, counters == counter_count(h.capacity))
}

// add: then 8, 7.
pub fn check_push(h: Handle, words: usize, counters: usize, v: u64) -> Result<(), Refusal>
    ensures { verdict_of result ≡ judge (push_table h words counters v) }
{
    check_record(h, words, counters)?;
    if 1 < v {
        return Err(Refusal::BadValue);
    }
    if h.capacity <= h.length {
        return Err(Refusal::Full);
    }
    Ok(())
}

// The total moved by one, up where a bit becomes 1, else down; modulo 2^64, so that one below 0 is above the length too.
pub fn moved_total(h: Handle, b: u64) -> usize
    requires { (b ≤ 1) × (h.total ≤ h.length) × (h.length ≤ most_bits) }
    ensures { (nat_lt h.length result ≡ (total_line h b).applies) × ((total_line h b).applies ≡ false → result ≡ (turned_handle h b).total) }
{
    let up = h.total as u64 + 2 * b;
    up.wrapping_sub(1) as usize
}

// The opposite of the bit at position i.
fn turned_bit(words: &[u64], i: usize) -> u64
    requires { i < 64 * length words.now }
    ensures { result ≡ 1 - bit_at words.now i }
{
    1 - bit_of(words[i / 64], i % 64)
}

// turn: then 4, and 9 where the total can not move.
pub fn check_flip(h: Handle, words: &[u64], counters: usize, i: usize) -> Result<(), Refusal>
    ensures { verdict_of result ≡ judge (move_table h words.now counters i) }
{
    check_below(h, words.len(), counters == counter_count(h.capacity), i)?;
    if h.length < moved_total(h, turned_bit(words, i)) {
        return Err(Refusal::Unfit);
    }
    Ok(())
}

// run: then 8, 5, 4.
pub fn check_fill(
    h: Handle,
    words: usize,
    counters: usize,
    a: usize,
    b: usize,
    v: u64,
) -> Result<(), Refusal>
    ensures { verdict_of result ≡ judge (fill_table h words counters a b v) }
{
    check_record(h, words, counters)?;
    if 1 < v {
        return Err(Refusal::BadValue);
    }
    if b < a {
        return Err(Refusal::Span);
    }
    if h.length < b {
        return Err(Refusal::Position);
    }
    Ok(())
}

// cut: then 4.
pub fn check_truncate(h: Handle, words: usize, counters: usize, n: usize) -> Result<(), Refusal>
    ensures { verdict_of result ≡ judge (truncate_table h words counters n) }
{
    check_record(h, words, counters)?;
    if h.length < n {
        return Err(Refusal::Position);
    }
    Ok(())
}

// count: then 8, 4.
pub fn check_rank(h: Handle, words: usize, counters: usize, v: u64, i: usize) -> Result<(), Refusal>
    ensures { verdict_of result ≡ judge (rank_table h words counters v i) }
{
    check_value(h, words, counters == counter_count(h.capacity), v, i)
}

// find: then 8, and 6 where k is not below the number of v that length and total give.
pub fn check_select(
    h: Handle,
    words: usize,
    counters: usize,
    v: u64,
    k: usize,
) -> Result<(), Refusal>
    ensures { verdict_of result ≡ judge (select_table h words counters v k) }
{
    check_record(h, words, counters)?;
    if 1 < v {
        return Err(Refusal::BadValue);
    }
    if of_value(v, h.length, h.total) <= k {
        return Err(Refusal::NotFound);
    }
    Ok(())
}
