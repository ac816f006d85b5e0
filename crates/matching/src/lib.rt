// Rows against a rule.
#![tactic(auto)]

mod truth;
mod walk;

pub use walk::passes;
