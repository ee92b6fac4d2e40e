// The waiting calls, on the words of a strip and of its waiting strip. They ignore the bits and marks past the length and write nothing.
ghost use Rattle.waiting.specs.Calls.{rank_told_of, select_told_of, WaitingRank, WaitingSelect};

use super::scan::{Counts, Marked};
use pairs::{check_pair, check_pair_within};
use words::{Refusal, Strip};

// The earliest and the latest position of a find over all outcomes; no latest where some outcome has no such stroke.
#[derive(Clone, Copy, Debug, PartialEq, Eq, Hash)]
pub struct Places {
    pub earliest: u64,
    pub latest: Option<u64>,
}

// waiting count(i): the least and the most misfires before i over all outcomes.
pub fn waiting_rank(strip: Strip, waiting: Strip, i: usize) -> Result<Counts, Refusal>
    ensures { WaitingRank strip.entry.handle strip.entry.words.now waiting.entry.handle waiting.entry.words.now i (rank_told_of result) }
{
    let xs = strip.words;
    let ys = waiting.words;
    check_pair_within(strip.handle, xs.len(), waiting.handle, ys.len(), i)?;
    let marked = Marked { xs, ys };
    Ok(marked.ones(i))
}

// waiting find(k): the earliest and the latest position of the k-th misfire, k from 0, over all outcomes.
pub fn waiting_select(strip: Strip, waiting: Strip, k: usize) -> Result<Places, Refusal>
    ensures { WaitingSelect strip.entry.handle strip.entry.words.now waiting.entry.handle waiting.entry.words.now k (select_told_of result) }
{
    let xs = strip.words;
    let ys = waiting.words;
    check_pair(strip.handle, xs.len(), waiting.handle, ys.len())?;
    let n = strip.handle.length;
    if n <= k {
        return Err(Refusal::NotFound);
    }
    let marked = Marked { xs, ys };
    let Some((a, b)) = marked.places((n + 63) / 64, k) else {
        return Err(Refusal::NotFound);
    };
    if n <= a {
        return Err(Refusal::NotFound);
    }
    let earliest = a as u64;
    match b {
        Some(p) if p < n => Ok(Places {
            earliest,
            latest: Some(p as u64),
        }),
        _ => Ok(Places {
            earliest,
            latest: None,
        }),
    }
}
