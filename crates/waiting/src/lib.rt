// A strip with strokes that still wait for pressure, which a second strip marks: what counts and finds give over all outcomes.
#![tactic(auto)]

mod scan;
mod waiting;

// Open to users: no `requires`, and a promise for every input.
pub use scan::Counts;
pub use waiting::{Places, waiting_rank, waiting_select};
