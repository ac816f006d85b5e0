// Reads rule texts: bytes are cut into tokens, the tokens are held against the limits, and the readers of the grammar put the
// rule's tree into a table of numbered nodes. Nothing allocates.
#![tactic(auto)]

mod cutter;
mod entry;
mod limits;
mod node;
mod reader;
mod rule;
mod spelling;
mod spot;
mod summary;
mod tokens;
mod tree;

pub use node::Node;
pub use rule::Rule;
pub use summary::Summary;
