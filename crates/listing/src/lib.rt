// The rows of an image as text.
#![tactic(auto)]

mod number;
mod rows;

// Open to users: no `requires`, and a promise for every input.
pub use rows::{MOST_LISTED, TEXT_BYTES, write_rows};
