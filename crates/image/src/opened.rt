// An opened row: thin calls over its own part of the image.
ghost use Rattle.std.specs.Prelude.{◌≡◌};
ghost use Rattle.words.specs.Refusals.{told_of};
ghost use Rattle.image.specs.Kinds.{kind1};
ghost use Rattle.image.specs.Calls.{open_part, held_length, part_get_told, PartRanked, PartSelected};

use super::open::{held_length, row_part};
use super::part::{part_get, part_rank, part_select};
use words::Refusal;

// An opened row: its own part of the image, and its length in bits.
#[derive(Clone, Copy)]
pub struct Row<'a> {
    part: &'a [u8],
    length: usize,
}

impl<'a> Row<'a> {
    // A part and a length, held together.
    pub fn new(part: &'a [u8], length: usize) -> Row<'a>
        ensures { (result.part ≡ part.entry) × (result.length ≡ length) }
    {
        Row { part, length }
    }

    // The row of a label; an empty part where the opening is refused.
    pub fn open(image: &'a [u8], label: usize) -> Row<'a>
        ensures { (result.part.now ≡ open_part image.now label) × (result.length ≡ held_length (open_part image.now label)) }
    {
        let part = row_part(image, label);
        Row::new(part, held_length(part))
    }

    // look(i): the bit at position i.
    pub fn get(self, i: usize) -> Result<u64, Refusal>
        ensures { told_of result ≡ part_get_told kind1 self.entry.part.now self.entry.length i }
    {
        part_get(self.part, self.length, i)
    }

    // count(v, i): how many of the first i bits equal v.
    pub fn rank(self, v: u64, i: usize) -> Result<u64, Refusal>
        ensures { PartRanked kind1 self.entry.part.now self.entry.length v i (told_of result) }
    {
        part_rank(self.part, self.length, v, i)
    }

    // find(v, k): the position that holds v and has k of v before it.
    pub fn select(self, v: u64, k: usize) -> Result<u64, Refusal>
        ensures { PartSelected kind1 self.entry.part.now self.entry.length v k (told_of result) }
    {
        part_select(self.part, self.length, v, k)
    }
}
