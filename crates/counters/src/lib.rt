// The counter layer: the tree of counters, and the calls over words and counters.
#![tactic(auto)]

mod answer;
mod ascent;
mod build;
mod change;
mod check;
mod descent;
mod fit;
mod path;
mod query;
mod read;
mod shape;

// Open to users: no `requires`, and a promise for every input.
pub use answer::{Change, Laid};
pub use change::{create, fill, flip, push, truncate};
pub use query::counters_needed;
pub use read::Record;

// For the layers above.
pub use check::check_record;
