// The orders that a day log is read from, and the text that it is written as.
#![tactic(auto)]

mod orders;
mod output;
mod text;

pub use orders::order;
pub use output::Output;
