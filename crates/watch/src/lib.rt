// Watches over any engine, and runs of calls on piles of them.
#![tactic(auto)]

mod runs;
mod watch;

pub use runs::{run, run_both};
pub use watch::Watch;
