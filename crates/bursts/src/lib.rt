// Bursts: a window of a strip that holds at least so many misfires, over its words alone.
#![tactic(auto)]

mod bursts;
mod search;
mod window;

// Open to users: no `requires`, and a promise for every input.
pub use bursts::{MOST_WIDTH, burst};
