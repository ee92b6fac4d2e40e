// The calls that compare two strips, each on its words alone: the first strip's capacity, length, total and words, then the second's. A refusal comes as 2^32
// plus its number.
ghost use Rattle.std.specs.Prelude.{◌≡◌};
ghost use Rattle.words.specs.Refusals.{coded as coded_of};
ghost use Rattle.words.specs.Handles.{handle};
ghost use Rattle.pairs.specs.Rules.{both, either, only_first, differ};
ghost use Rattle.pairs.specs.Calls.{pair_rank_told, pair_select_told, pair_span_told, coded_span};

use super::lent::strip_over;
use pairs::{Rule, coded_span, pair_rank, pair_select, pair_span};
use words::coded;

// How many strokes before i both strips mark.
pub fn strip_pair_both(
    capacity: u64,
    length: u64,
    total: u64,
    words: &[u64],
    capacity2: u64,
    length2: u64,
    total2: u64,
    words2: &[u64],
    i: u64,
) -> u64
    ensures { result ≡ coded_of (pair_rank_told both (handle capacity length total) words.now
        (handle capacity2 length2 total2) words2.now i) }
{
    let first = strip_over(capacity, length, total, words);
    let second = strip_over(capacity2, length2, total2, words2);
    coded(pair_rank(Rule::Both, first, second, i as usize))
}

// How many strokes before i either marks.
pub fn strip_pair_either(
    capacity: u64,
    length: u64,
    total: u64,
    words: &[u64],
    capacity2: u64,
    length2: u64,
    total2: u64,
    words2: &[u64],
    i: u64,
) -> u64
    ensures { result ≡ coded_of (pair_rank_told either (handle capacity length total) words.now
        (handle capacity2 length2 total2) words2.now i) }
{
    let first = strip_over(capacity, length, total, words);
    let second = strip_over(capacity2, length2, total2, words2);
    coded(pair_rank(Rule::Either, first, second, i as usize))
}

// How many strokes before i only the first marks.
pub fn strip_pair_only_first(
    capacity: u64,
    length: u64,
    total: u64,
    words: &[u64],
    capacity2: u64,
    length2: u64,
    total2: u64,
    words2: &[u64],
    i: u64,
) -> u64
    ensures { result ≡ coded_of (pair_rank_told only_first (handle capacity length total) words.now
        (handle capacity2 length2 total2) words2.now i) }
{
    let first = strip_over(capacity, length, total, words);
    let second = strip_over(capacity2, length2, total2, words2);
    coded(pair_rank(Rule::OnlyFirst, first, second, i as usize))
}

// How many strokes before i the strips judge differently.
pub fn strip_pair_differ(
    capacity: u64,
    length: u64,
    total: u64,
    words: &[u64],
    capacity2: u64,
    length2: u64,
    total2: u64,
    words2: &[u64],
    i: u64,
) -> u64
    ensures { result ≡ coded_of (pair_rank_told differ (handle capacity length total) words.now
        (handle capacity2 length2 total2) words2.now i) }
{
    let first = strip_over(capacity, length, total, words);
    let second = strip_over(capacity2, length2, total2, words2);
    coded(pair_rank(Rule::Differ, first, second, i as usize))
}

// The position of the k-th stroke, k from 0, that they judge differently.
pub fn strip_pair_find(
    capacity: u64,
    length: u64,
    total: u64,
    words: &[u64],
    capacity2: u64,
    length2: u64,
    total2: u64,
    words2: &[u64],
    k: u64,
) -> u64
    ensures { result ≡ coded_of (pair_select_told differ (handle capacity length total) words.now
        (handle capacity2 length2 total2) words2.now k) }
{
    let first = strip_over(capacity, length, total, words);
    let second = strip_over(capacity2, length2, total2, words2);
    coded(pair_select(Rule::Differ, first, second, k as usize))
}

// The ones of the first in positions a to b - 1 less those of the second.
pub fn strip_pair_span(
    capacity: u64,
    length: u64,
    total: u64,
    words: &[u64],
    capacity2: u64,
    length2: u64,
    total2: u64,
    words2: &[u64],
    a: u64,
    b: u64,
) -> i64
    ensures { result ≡ coded_span (pair_span_told (handle capacity length total) words.now
        (handle capacity2 length2 total2) words2.now a b) }
{
    let first = strip_over(capacity, length, total, words);
    let second = strip_over(capacity2, length2, total2, words2);
    coded_span(pair_span(first, second, a as usize, b as usize))
}
