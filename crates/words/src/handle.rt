// The handle of a strip, and the checks that all strip calls share.
ghost use Rattle.std.specs.Prelude.{◌≡◌};
ghost use Rattle.words.specs.Refusals.{judge, verdict_of};
ghost use Rattle.words.specs.Handles.{handle as handle_with, strip_lines, allowed as allowed_of};

use super::refusal::Refusal;

// A block, and the step of the capacity.
pub const BLOCK_BITS: usize = 512;
// The largest capacity.
pub const MOST_BITS: usize = 134217728;

// A strip's capacity, length and total, its number of ones. The words lie with the caller.
#[derive(Clone, Copy, Debug, PartialEq, Eq, Hash)]
pub struct Handle {
    pub capacity: usize,
    pub length: usize,
    pub total: usize,
}

impl Handle {
    pub fn new(capacity: usize, length: usize, total: usize) -> Self
        ensures { result ≡ handle_with capacity length total }
    {
        Handle {
            capacity,
            length,
            total,
        }
    }
}

// Whether a capacity is allowed: a multiple of 512, from 512 to 134,217,728.
pub fn allowed(capacity: usize) -> bool
    ensures { result ≡ allowed_of capacity }
{
    capacity % BLOCK_BITS == 0 && BLOCK_BITS <= capacity && capacity <= MOST_BITS
}

// `counted` of a call that takes no counters.
pub const UNTAKEN: bool = true;

// The checks 1, 2 and 3. `words` is the number of words lent; `counted` says that the counters are right in number, or not taken.
pub fn check_strip(h: Handle, words: usize, counted: bool) -> Result<(), Refusal>
    ensures { verdict_of result ≡ judge (strip_lines h words counted) }
{
    if !allowed(h.capacity) || h.capacity < h.length || h.length < h.total {
        return Err(Refusal::BadHandle);
    }
    if words != h.capacity / 64 {
        return Err(Refusal::WordCount);
    }
    if !counted {
        return Err(Refusal::CounterCount);
    }
    Ok(())
}
