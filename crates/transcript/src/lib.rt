// The whole output of `daylog` for a whole input, written into lent memory. Nothing allocates.
#![tactic(auto)]

mod log;
mod whole;

pub use whole::{INPUT_LIMIT, transcribe};
