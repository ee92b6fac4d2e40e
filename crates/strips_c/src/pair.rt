// The calls that compare two strips.
ghost use Rattle.std.specs.Prelude.{◌≡◌};
ghost use Rattle.words.specs.Refusals.{coded as coded_of};
ghost use Rattle.words.specs.Handles.{handle};
ghost use Rattle.pairs.specs.Rules.{both, either, only_first, differ};
ghost use Rattle.pairs.specs.Calls.{pair_rank_told, pair_select_told, pair_span_told, coded_span};

// How many strokes before i both strips mark.
#[unsafe(no_mangle)]
pub extern "C" fn strip_pair_both(
    capacity: u64,
    length: u64,
    total: u64,
    words: &[u64],
    capacity2: u64,
    length2: u64,
    total2: u64,
    words2: &[u64],
    i: u64,
) -> u64
    ensures { result ≡ coded_of (pair_rank_told both (handle capacity length total) words.now
        (handle capacity2 length2 total2) words2.now i) }
{
    strips::strip_pair_both(
        capacity, length, total, words, capacity2, length2, total2, words2, i,
    )
}

// How many strokes before i either marks.
#[unsafe(no_mangle)]
pub extern "C" fn strip_pair_either(
    capacity: u64,
    length: u64,
    total: u64,
    words: &[u64],
    capacity2: u64,
    length2: u64,
    total2: u64,
    words2: &[u64],
    i: u64,
) -> u64
    ensures { result ≡ coded_of (pair_rank_told either (handle capacity length total) words.now
        (handle capacity2 length2 total2) words2.now i) }
{
    strips::strip_pair_either(
        capacity, length, total, words, capacity2, length2, total2, words2, i,
    )
}

// How many strokes before i only the first marks.
#[unsafe(no_mangle)]
pub extern "C" fn strip_pair_only_first(
    capacity: u64,
    length: u64,
    total: u64,
    words: &[u64],
    capacity2: u64,
    length2: u64,
    total2: u64,
    words2: &[u64],
    i: u64,
) -> u64
    ensures { result ≡ coded_of (pair_rank_told only_first (handle capacity length total) words.now
        (handle capacity2 length2 total2) words2.now i) }
{
    strips::strip_pair_only_first(
        capacity, length, total, words, capacity2, length2, total2, words2, i,
    )
}

// How many strokes before i the strips judge differently.
#[unsafe(no_mangle)]
pub extern "C" fn strip_pair_differ(
    capacity: u64,
    length: u64,
    total: u64,
    words: &[u64],
    capacity2: u64,
    length2: u64,
    total2: u64,
    words2: &[u64],
    i: u64,
) -> u64
    ensures { result ≡ coded_of (pair_rank_told differ (handle capacity length total) words.now
        (handle capacity2 length2 total2) words2.now i) }
{
    strips::strip_pair_differ(
        capacity, length, total, words, capacity2, length2, total2, words2, i,
    )
}

// The position of the k-th stroke, k from 0, that they judge differently.
#[unsafe(no_mangle)]
pub extern "C" fn strip_pair_find(
    capacity: u64,
    length: u64,
    total: u64,
    words: &[u64],
    capacity2: u64,
    length2: u64,
    total2: u64,
    words2: &[u64],
    k: u64,
) -> u64
    ensures { result ≡ coded_of (pair_select_told differ (handle capacity length total) words.now
        (handle capacity2 length2 total2) words2.now k) }
{
    strips::strip_pair_find(
        capacity, length, total, words, capacity2, length2, total2, words2, k,
    )
}

// The ones of the first in positions a to b - 1 less those of the second.
#[unsafe(no_mangle)]
pub extern "C" fn strip_pair_span(
    capacity: u64,
    length: u64,
    total: u64,
    words: &[u64],
    capacity2: u64,
    length2: u64,
    total2: u64,
    words2: &[u64],
    a: u64,
    b: u64,
) -> i64
    ensures { result ≡ coded_span (pair_span_told (handle capacity length total) words.now
        (handle capacity2 length2 total2) words2.now a b) }
{
    strips::strip_pair_span(
        capacity, length, total, words, capacity2, length2, total2, words2, a, b,
    )
}
