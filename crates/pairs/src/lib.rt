// Two strips of equal capacity and length side by side: counts and a find under a rule that joins their bits, and the difference of their ones over a span.
#![tactic(auto)]

mod pair;
mod rule;
mod scan;

// Open to users: no `requires`, and a promise for every input.
pub use pair::{coded_span, pair_rank, pair_select, pair_span};
pub use rule::Rule;

// For the layers above.
pub use pair::{check_pair, check_pair_within};
pub use rule::join;
pub use scan::{Joined, words_passed};
