// The query about a capacity.
ghost use Rattle.std.specs.Prelude.{◌≡◌};
ghost use Rattle.words.specs.Refusals.{told_of};
ghost use Rattle.counters.specs.Calls.{counters_told};

use super::shape::counter_count;
use words::{Refusal, allowed};

// How many counters a capacity needs.
pub fn counters_needed(capacity: usize) -> Result<u64, Refusal>
    ensures { told_of result ≡ counters_told capacity }
{
    if !allowed(capacity) {
        return Err(Refusal::BadHandle);
    }
    Ok(counter_count(capacity) as u64)
}
