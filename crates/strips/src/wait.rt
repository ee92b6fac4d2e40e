// The waiting calls: the strip's capacity, length, total and words, then the waiting strip's. They write to the front of `out`: refusal or 0, then the values,
// 0 where refused. With an `out` shorter than these numbers, three of a count and four of a find, nothing runs.
ghost use Rattle.std.specs.Prelude.{◌≡◌, ◌≤◌, length};
ghost use Rattle.words.specs.Handles.{handle};
ghost use Rattle.waiting.specs.Calls.{rank_told_of, select_told_of, WaitingRank, WaitingSelect};
ghost use Rattle.strips.specs.Exports.{numbers_over, rank_numbers, select_numbers, Written};

use super::lent::{strip_over, write_numbers};
use waiting::{Counts, Places, waiting_rank, waiting_select};
use words::Refusal;

// Writes what a waiting count answers.
fn write_rank(out: &mut [u64], m: Result<Counts, Refusal>)
    requires { 3 ≤ length out.old }
    ensures { out.new ≡ numbers_over 3 (rank_numbers (rank_told_of m)) out.old }
{
    match m {
        Ok(c) => write_numbers(out, [0, c.least, c.most]),
        Err(r) => write_numbers(out, [u64::from(r), 0, 0]),
    }
}

// Writes what a waiting find answers.
fn write_select(out: &mut [u64], m: Result<Places, Refusal>)
    requires { 4 ≤ length out.old }
    ensures { out.new ≡ numbers_over 4 (select_numbers (select_told_of m)) out.old }
{
    match m {
        Err(r) => write_numbers(out, [u64::from(r), 0, 0, 0]),
        Ok(p) => match p.latest {
            Some(latest) => write_numbers(out, [0, p.earliest, 1, latest]),
            None => write_numbers(out, [0, p.earliest, 0, 0]),
        },
    }
}

// waiting count(i): the least and the most misfires before i over all outcomes.
pub fn strip_waiting_count(
    capacity: u64,
    length: u64,
    total: u64,
    words: &[u64],
    capacity2: u64,
    length2: u64,
    total2: u64,
    words2: &[u64],
    i: u64,
    out: &mut [u64],
)
    ensures { Written 3 rank_numbers (WaitingRank (handle capacity length total) words.now
        (handle capacity2 length2 total2) words2.now i)
        out.old out.new }
{
    if out.len() < 3 {
        return;
    }
    let strip = strip_over(capacity, length, total, words);
    let waiting = strip_over(capacity2, length2, total2, words2);
    let m = waiting_rank(strip, waiting, i as usize);
    write_rank(out, m);
}

// waiting find(k): the earliest and the latest position of the k-th misfire, k from 0, over all outcomes.
pub fn strip_waiting_find(
    capacity: u64,
    length: u64,
    total: u64,
    words: &[u64],
    capacity2: u64,
    length2: u64,
    total2: u64,
    words2: &[u64],
    k: u64,
    out: &mut [u64],
)
    ensures { Written 4 select_numbers (WaitingSelect (handle capacity length total) words.now
        (handle capacity2 length2 total2) words2.now k)
        out.old out.new }
{
    if out.len() < 4 {
        return;
    }
    let strip = strip_over(capacity, length, total, words);
    let waiting = strip_over(capacity2, length2, total2, words2);
    let m = waiting_select(strip, waiting, k as usize);
    write_select(out, m);
}
