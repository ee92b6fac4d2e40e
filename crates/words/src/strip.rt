// A strip, and the calls on its words alone: look, next and prior. They ignore the bits past the length and write nothing.
ghost use Rattle.std.specs.Prelude.{◌≡◌};
ghost use Rattle.words.specs.Refusals.{judge, verdict_of, told_of};
ghost use Rattle.words.specs.Calls.{below_table, value_table, get_told, successor_told, predecessor_told};

use super::bits::bit_of;
use super::handle::{Handle, UNTAKEN, check_strip};
use super::refusal::Refusal;
use super::scan::{first_from, last_before};

// The checks of a call that takes a position below the length: 1, 2, 3, 4.
pub fn check_below(h: Handle, words: usize, counted: bool, i: usize) -> Result<(), Refusal>
    ensures { verdict_of result ≡ judge (below_table h words counted i) }
{
    check_strip(h, words, counted)?;
    if h.length <= i {
        return Err(Refusal::Position);
    }
    Ok(())
}

// The checks of a call that takes a value and a position not above the length: 1, 2, 3, 8, 4.
pub fn check_value(h: Handle, words: usize, counted: bool, v: u64, i: usize) -> Result<(), Refusal>
    ensures { verdict_of result ≡ judge (value_table h words counted v i) }
{
    check_strip(h, words, counted)?;
    let length = h.length;
    if 1 < v {
        return Err(Refusal::BadValue);
    }
    if length < i {
        return Err(Refusal::Position);
    }
    Ok(())
}

// A strip: its handle, and the words that it lies in.
#[derive(Clone, Copy)]
pub struct Strip<'a> {
    pub handle: Handle,
    pub words: &'a [u64],
}

impl<'a> Strip<'a> {
    pub fn new(handle: Handle, words: &'a [u64]) -> Strip<'a>
        ensures { (result.handle ≡ handle) × (result.words ≡ words.entry) }
    {
        Strip { handle, words }
    }

    // look(i): the bit at position i.
    pub fn get(self, i: usize) -> Result<u64, Refusal>
        ensures { told_of result ≡ get_told self.entry.handle self.entry.words.now i }
    {
        let h = self.handle;
        let words = self.words;
        check_below(h, words.len(), UNTAKEN, i)?;
        Ok(bit_of(words[i / 64], i % 64))
    }

    // next(v, i): the smallest position at or past i that holds v.
    pub fn successor(self, v: u64, i: usize) -> Result<u64, Refusal>
        ensures { told_of result ≡ successor_told self.entry.handle self.entry.words.now v i }
    {
        let h = self.handle;
        let words = self.words;
        check_value(h, words.len(), UNTAKEN, v, i)?;
        match first_from(words, h.length, v == 1, i) {
            Some(p) => Ok(p as u64),
            None => Err(Refusal::NotFound),
        }
    }

    // prior(v, i): the largest position below i that holds v.
    pub fn predecessor(self, v: u64, i: usize) -> Result<u64, Refusal>
        ensures { told_of result ≡ predecessor_told self.entry.handle self.entry.words.now v i }
    {
        let h = self.handle;
        let words = self.words;
        check_value(h, words.len(), UNTAKEN, v, i)?;
        match last_before(words, v == 1, i) {
            Some(p) => Ok(p as u64),
            None => Err(Refusal::NotFound),
        }
    }
}
