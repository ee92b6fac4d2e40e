// Merging two images of one engine into a third buffer.
#![tactic(auto)]

mod copy;
mod merging;
mod rows;

// Open to users: no `requires`, and a promise for every input.
pub use merging::merge;
