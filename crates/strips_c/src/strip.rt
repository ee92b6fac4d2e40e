// The calls on words alone, the burst call and the query of the number of counters.
ghost use Rattle.std.specs.Prelude.{◌≡◌};
ghost use Rattle.words.specs.Refusals.{coded as coded_of, CodedAs};
ghost use Rattle.words.specs.Handles.{handle};
ghost use Rattle.words.specs.Calls.{get_told, successor_told, predecessor_told};
ghost use Rattle.counters.specs.Calls.{counters_told};
ghost use Rattle.bursts.specs.Calls.{Burst};

// look(i): the bit at position i.
#[unsafe(no_mangle)]
pub extern "C" fn strip_get(capacity: u64, length: u64, total: u64, words: &[u64], i: u64) -> u64
    ensures { result ≡ coded_of (get_told (handle capacity length total) words.now i) }
{
    strips::strip_get(capacity, length, total, words, i)
}

// next(v, i): the smallest position at or past i that holds v.
#[unsafe(no_mangle)]
pub extern "C" fn strip_successor(
    capacity: u64,
    length: u64,
    total: u64,
    words: &[u64],
    v: u64,
    i: u64,
) -> u64
    ensures { result ≡ coded_of (successor_told (handle capacity length total) words.now v i) }
{
    strips::strip_successor(capacity, length, total, words, v, i)
}

// prior(v, i): the largest position below i that holds v.
#[unsafe(no_mangle)]
pub extern "C" fn strip_predecessor(
    capacity: u64,
    length: u64,
    total: u64,
    words: &[u64],
    v: u64,
    i: u64,
) -> u64
    ensures { result ≡ coded_of (predecessor_told (handle capacity length total) words.now v i) }
{
    strips::strip_predecessor(capacity, length, total, words, v, i)
}

// burst(w, m): the start of a window of w strokes that holds at least m misfires.
#[unsafe(no_mangle)]
pub extern "C" fn strip_burst(
    capacity: u64,
    length: u64,
    total: u64,
    words: &[u64],
    w: u64,
    m: u64,
) -> u64
    ensures { CodedAs (Burst (handle capacity length total) words.now w m) result }
{
    strips::strip_burst(capacity, length, total, words, w, m)
}

// How many counters a capacity needs.
#[unsafe(no_mangle)]
pub extern "C" fn strip_counter_count(capacity: u64) -> u64
    ensures { result ≡ coded_of (counters_told capacity) }
{
    strips::strip_counter_count(capacity)
}
