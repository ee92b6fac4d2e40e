// A record that is read, and the calls that read it: count, find and check. They write nothing.
ghost use Rattle.std.specs.Prelude.{◌≡◌};
ghost use Rattle.words.specs.Refusals.{told_of};
ghost use Rattle.counters.specs.Calls.{Ranked, Selected, verify_told};

use super::check::{check_rank, check_record, check_select};
use super::fit::record_fits;
use super::shape::Tree;
use words::{BLOCK_BITS, Handle, Refusal, Strip, of_value};

// A record: a strip, and the counters over it.
#[derive(Clone, Copy)]
pub struct Record<'a> {
    pub strip: Strip<'a>,
    pub counters: &'a [u32],
}

impl<'a> Record<'a> {
    pub fn new(handle: Handle, words: &'a [u64], counters: &'a [u32]) -> Record<'a>
        ensures { (result.strip.handle ≡ handle) × (result.strip.words ≡ words.entry) × (result.counters ≡ counters.entry) }
    {
        Record {
            strip: Strip::new(handle, words),
            counters,
        }
    }

    // count(v, i): how many of the first i bits equal v.
    pub fn rank(self, v: u64, i: usize) -> Result<u64, Refusal>
        ensures { Ranked self.entry.strip.handle v i self.entry.strip.words.now self.entry.counters.now (told_of result) }
    {
        let h = self.strip.handle;
        let words = self.strip.words;
        let counters = self.counters;
        check_rank(h, words.len(), counters.len(), v, i)?;
        let tree = Tree {
            blocks: h.capacity / BLOCK_BITS,
            words,
            counters,
        };
        let ones = tree.ones_before(i);
        if i < ones {
            return Err(Refusal::Unfit);
        }
        Ok(of_value(v, i, ones) as u64)
    }

    // find(v, k): the position that holds v and has k of v before it.
    pub fn select(self, v: u64, k: usize) -> Result<u64, Refusal>
        ensures { Selected self.entry.strip.handle v k self.entry.strip.words.now self.entry.counters.now (told_of result) }
    {
        let h = self.strip.handle;
        let words = self.strip.words;
        let counters = self.counters;
        check_select(h, words.len(), counters.len(), v, k)?;
        let tree = Tree {
            blocks: h.capacity / BLOCK_BITS,
            words,
            counters,
        };
        match tree.select_position(v == 1, k) {
            Some(p) if p < h.length => Ok(p as u64),
            _ => Err(Refusal::Unfit),
        }
    }

    // check: the ones held, or 9 where the record does not fit.
    pub fn verify(self) -> Result<u64, Refusal>
        ensures { told_of result ≡ verify_told self.entry.strip.handle self.entry.strip.words.now self.entry.counters.now }
    {
        verified(self.strip.handle, self.strip.words, self.counters)
    }
}

// The same of a record's parts: that each word is a u64 is known of a buffer that is a parameter, and not of a field.
fn verified(h: Handle, words: &[u64], counters: &[u32]) -> Result<u64, Refusal>
    ensures { told_of result ≡ verify_told h words.now counters.now }
{
    check_record(h, words.len(), counters.len())?;
    if !record_fits(h, words, counters) {
        return Err(Refusal::Unfit);
    }
    Ok(h.total as u64)
}
