// The calls that compare two strips, each on its words alone. They ignore the bits past the length and write nothing.
ghost use Rattle.std.specs.Prelude.{◌≡◌, length};
ghost use Rattle.words.specs.Refusals.{judge, verdict_of, told_of};
ghost use Rattle.pairs.specs.Rules.{rule_of};
ghost use Rattle.pairs.specs.Calls.{spanned_of, coded_span, equal_table, pair_lines, pair_within_table, pair_span_table, pair_rank_told, pair_select_told, pair_span_told};

use super::rule::Rule;
use super::scan::Joined;
use words::{Handle, Refusal, Strip, UNTAKEN, check_strip, span_ones};

// A span's answer as one number: the value, or 2^32 plus the refusal's number.
// Kept: beside words `coded`: a trait for the two types of number would be longer than these lines.
pub fn coded_span(d: Result<i64, Refusal>) -> i64
    ensures { result ≡ coded_span (spanned_of d) }
{
    match d {
        Ok(z) => z,
        Err(r) => (4294967296 + u64::from(r)) as i64,
    }
}

// The check of two strips against each other: 16.
fn check_equal(first: Handle, second: Handle) -> Result<(), Refusal>
    ensures { verdict_of result ≡ judge (equal_table first second) }
{
    if first.capacity != second.capacity || first.length != second.length {
        return Err(Refusal::Unequal);
    }
    Ok(())
}

// The checks of a call on two strips: the first strip's 1, 2; the second's; 16. `words` and `others` are the numbers of words lent.
// Kept: numbers, and no strips, since any numbers are judged and no word is read.
pub fn check_pair(first: Handle, words: usize, second: Handle, others: usize) -> Result<(), Refusal>
    ensures { verdict_of result ≡ judge (pair_lines first words second others) }
{
    check_strip(first, words, UNTAKEN)?;
    check_strip(second, others, UNTAKEN)?;
    check_equal(first, second)
}

// The checks of one that takes a position not above the length: those of two strips, then 4.
pub fn check_pair_within(
    first: Handle,
    words: usize,
    second: Handle,
    others: usize,
    i: usize,
) -> Result<(), Refusal>
    ensures { verdict_of result ≡ judge (pair_within_table first words second others i) }
{
    check_pair(first, words, second, others)?;
    if first.length < i {
        return Err(Refusal::Position);
    }
    Ok(())
}

// The checks of one that takes a span: those of two strips, then 5, 4.
fn check_pair_span(first: Strip, second: Strip, a: usize, b: usize) -> Result<(), Refusal>
    ensures { verdict_of result ≡ judge (pair_span_table first.entry.handle (length first.entry.words.now) second.entry.handle (length second.entry.words.now) a b) }
{
    let xs = first.words;
    let ys = second.words;
    check_pair(first.handle, xs.len(), second.handle, ys.len())?;
    if b < a {
        return Err(Refusal::Span);
    }
    if first.handle.length < b {
        return Err(Refusal::Position);
    }
    Ok(())
}

// How many strokes before i the rule marks.
pub fn pair_rank(rule: Rule, first: Strip, second: Strip, i: usize) -> Result<u64, Refusal>
    ensures { told_of result ≡ pair_rank_told (rule_of rule) first.entry.handle first.entry.words.now second.entry.handle second.entry.words.now i }
{
    let xs = first.words;
    let ys = second.words;
    check_pair_within(first.handle, xs.len(), second.handle, ys.len(), i)?;
    let joined = Joined { rule, xs, ys };
    Ok(joined.ones(i) as u64)
}

// The position of the k-th stroke, k from 0, that the rule marks.
pub fn pair_select(rule: Rule, first: Strip, second: Strip, k: usize) -> Result<u64, Refusal>
    ensures { told_of result ≡ pair_select_told (rule_of rule) first.entry.handle first.entry.words.now second.entry.handle second.entry.words.now k }
{
    let xs = first.words;
    let ys = second.words;
    check_pair(first.handle, xs.len(), second.handle, ys.len())?;
    let n = first.handle.length;
    if n <= k {
        return Err(Refusal::NotFound);
    }
    let joined = Joined { rule, xs, ys };
    let Some(p) = joined.place(0, (n + 63) / 64, k) else {
        return Err(Refusal::NotFound);
    };
    if p < n {
        Ok(p as u64)
    } else {
        Err(Refusal::NotFound)
    }
}

// The ones of the first strip in positions a to b - 1 less those of the second.
pub fn pair_span(first: Strip, second: Strip, a: usize, b: usize) -> Result<i64, Refusal>
    ensures { spanned_of result ≡ pair_span_told first.entry.handle first.entry.words.now second.entry.handle second.entry.words.now a b }
{
    check_pair_span(first, second, a, b)?;
    let p = span_ones(first.words, a, b);
    let q = span_ones(second.words, a, b);
    Ok((p as i64) - (q as i64))
}
