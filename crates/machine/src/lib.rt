// The runner: scripts of calls over one set of lent buffers, from an opening lay and clear.
#![tactic(auto)]

mod dispatch;
mod runner;

// Open to users: no `requires`, and a promise for every input.
pub use dispatch::step;
pub use runner::execute;
