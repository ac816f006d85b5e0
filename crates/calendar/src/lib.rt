// The reckoned calendar: thirty years of twelve months, 10,631 days, and the engine that stands at one of them.
#![tactic(auto)]

mod day;
mod reckoned;
mod rule;
mod table;

pub use reckoned::Reckoned;
