// The calls on words alone, and how many counters a capacity needs. A refusal comes as 2^32 plus its number.
ghost use Rattle.std.specs.Prelude.{◌≡◌};
ghost use Rattle.words.specs.Refusals.{coded as coded_of, CodedAs};
ghost use Rattle.words.specs.Handles.{handle};
ghost use Rattle.words.specs.Calls.{get_told, successor_told, predecessor_told};
ghost use Rattle.counters.specs.Calls.{counters_told};
ghost use Rattle.bursts.specs.Calls.{Burst};

use super::lent::strip_over;
use bursts::burst;
use counters::counters_needed;
use words::coded;

// look(i): the bit at position i.
pub fn strip_get(capacity: u64, length: u64, total: u64, words: &[u64], i: u64) -> u64
    ensures { result ≡ coded_of (get_told (handle capacity length total) words.now i) }
{
    coded(strip_over(capacity, length, total, words).get(i as usize))
}

// next(v, i): the smallest position at or past i that holds v.
pub fn strip_successor(capacity: u64, length: u64, total: u64, words: &[u64], v: u64, i: u64) -> u64
    ensures { result ≡ coded_of (successor_told (handle capacity length total) words.now v i) }
{
    coded(strip_over(capacity, length, total, words).successor(v, i as usize))
}

// prior(v, i): the largest position below i that holds v.
pub fn strip_predecessor(
    capacity: u64,
    length: u64,
    total: u64,
    words: &[u64],
    v: u64,
    i: u64,
) -> u64
    ensures { result ≡ coded_of (predecessor_told (handle capacity length total) words.now v i) }
{
    coded(strip_over(capacity, length, total, words).predecessor(v, i as usize))
}

// burst(w, m): the start of a window of w strokes that holds at least m misfires.
pub fn strip_burst(capacity: u64, length: u64, total: u64, words: &[u64], w: u64, m: u64) -> u64
    ensures { CodedAs (Burst (handle capacity length total) words.now w m) result }
{
    let strip = strip_over(capacity, length, total, words);
    coded(burst(strip, w as usize, m as usize))
}

// How many counters a capacity needs.
pub fn strip_counter_count(capacity: u64) -> u64
    ensures { result ≡ coded_of (counters_told capacity) }
{
    coded(counters_needed(capacity as usize))
}
