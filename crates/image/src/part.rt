// The calls on a row's part and a held length: look, count and find.
ghost use Rattle.std.specs.Prelude.{◌≡◌, true, false, MatchResult};
ghost use Rattle.words.specs.Refusals.{told_of};
ghost use Rattle.words.specs.declared.refusal.Refusal.TheVariants.{Unsound};
ghost use Rattle.image.specs.Kinds.{kind1};
ghost use Rattle.image.specs.Calls.{good_part, part_get_told, PartRanked, PartSelected};

use super::fields::{fields_good, length_at, ones_at};
use super::layout::{HEAD_BYTES, record_size};
use super::reading::Record;
use words::{Refusal, of_value};

// The record that a part is: 10 where it is not exactly one with label and length in range, of length n.
pub fn check_part(part: &[u8], n: usize) -> Result<Record<'_>, Refusal>
    ensures { MatchResult result (λ r. (r.part ≡ part.entry) × (r.n ≡ n) × (good_part kind1 part.now n ≡ true))
        (λ e. (e ≡ Unsound) × (good_part kind1 part.now n ≡ false)) }
{
    let bytes = part.len();
    if bytes < HEAD_BYTES {
        return Err(Refusal::Unsound);
    }
    if !fields_good(part, 0) {
        return Err(Refusal::Unsound);
    }
    let length = length_at(part, 0);
    if bytes != record_size(length) {
        return Err(Refusal::Unsound);
    }
    if n != length {
        return Err(Refusal::Unsound);
    }
    Ok(Record::new(part, n))
}

// look(i): the bit at position i.
pub fn part_get(part: &[u8], n: usize, i: usize) -> Result<u64, Refusal>
    ensures { told_of result ≡ part_get_told kind1 part.now n i }
{
    let record = check_part(part, n)?;
    if n <= i {
        return Err(Refusal::Position);
    }
    Ok(record.bit(i))
}

// count(v, i): how many of the first i bits equal v.
pub fn part_rank(part: &[u8], n: usize, v: u64, i: usize) -> Result<u64, Refusal>
    ensures { PartRanked kind1 part.now n v i (told_of result) }
{
    let record = check_part(part, n)?;
    if 1 < v {
        return Err(Refusal::BadValue);
    }
    if n < i {
        return Err(Refusal::Position);
    }
    let ones = record.ones_before(i);
    if i < ones {
        return Err(Refusal::WrongRow);
    }
    Ok(of_value(v, i, ones) as u64)
}

// find(v, k): the position that holds v and has k of v before it.
pub fn part_select(part: &[u8], n: usize, v: u64, k: usize) -> Result<u64, Refusal>
    ensures { PartSelected kind1 part.now n v k (told_of result) }
{
    let record = check_part(part, n)?;
    if 1 < v {
        return Err(Refusal::BadValue);
    }
    if n <= k {
        return Err(Refusal::NotFound);
    }
    let ones = ones_at(part, 0);
    if n < ones {
        return Err(Refusal::WrongRow);
    }
    if of_value(v, n, ones) <= k {
        return Err(Refusal::NotFound);
    }
    match record.position(v == 1, k) {
        Some(p) => Ok(p as u64),
        None => Err(Refusal::WrongRow),
    }
}
