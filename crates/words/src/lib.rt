// The word layer: the handle, refusals and answers, and the calls on words alone.
#![tactic(auto)]

mod bits;
mod block;
mod fill;
mod handle;
mod lanes;
mod refusal;
mod scan;
mod select;
mod span;
mod strip;
mod table;

// Open to users: no `requires`, and a promise for every input.
pub use handle::{BLOCK_BITS, Handle, MOST_BITS};
pub use refusal::{Refusal, coded};
pub use strip::Strip;

// For the layers above.
pub use bits::{bit_of, low_mask, of_value, ones_of};
pub use block::{block_at, block_ones, block_rank, block_select};
pub use fill::{flip_position, put_position, put_positions};
pub use handle::{UNTAKEN, allowed, check_strip};
pub use scan::first_from;
pub use select::select_in_word;
pub use span::span_ones;
pub use strip::{check_below, check_value};
