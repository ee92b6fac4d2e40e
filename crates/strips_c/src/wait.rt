// The waiting calls.
ghost use Rattle.words.specs.Handles.{handle};
ghost use Rattle.waiting.specs.Calls.{WaitingRank, WaitingSelect};
ghost use Rattle.strips.specs.Exports.{rank_numbers, select_numbers, Written};

// waiting count(i): the least and the most misfires before i over all outcomes.
#[unsafe(no_mangle)]
pub extern "C" fn strip_waiting_count(
    capacity: u64,
    length: u64,
    total: u64,
    words: &[u64],
    capacity2: u64,
    length2: u64,
    total2: u64,
    words2: &[u64],
    i: u64,
    out: &mut [u64],
)
    ensures { Written 3 rank_numbers (WaitingRank (handle capacity length total) words.now
        (handle capacity2 length2 total2) words2.now i)
        out.old out.new }
{
    strips::strip_waiting_count(
        capacity, length, total, words, capacity2, length2, total2, words2, i, out,
    )
}

// waiting find(k): the earliest and the latest position of the k-th misfire, k from 0, over all outcomes.
#[unsafe(no_mangle)]
pub extern "C" fn strip_waiting_find(
    capacity: u64,
    length: u64,
    total: u64,
    words: &[u64],
    capacity2: u64,
    length2: u64,
    total2: u64,
    words2: &[u64],
    k: u64,
    out: &mut [u64],
)
    ensures { Written 4 select_numbers (WaitingSelect (handle capacity length total) words.now
        (handle capacity2 length2 total2) words2.now k)
        out.old out.new }
{
    strips::strip_waiting_find(
        capacity, length, total, words, capacity2, length2, total2, words2, k, out,
    )
}
