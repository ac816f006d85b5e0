// Reads a rule from its tokens, by recursive descent: each method puts the tree of what it read after the nodes that are there.
ghost use Rattle.std.specs.Prelude.{◌+◌, ◌≤◌, length};
ghost use Rattle.rule.specs.Built.{nodes_of};
ghost use Rattle.rule.specs.Stored.{symbols_of};

use crate::tokens::Tokens;
use crate::tree::Tree;

mod claims;
mod patterns;
mod steps;
mod sums;

// The index of the next token, and the tree of what was read so far. There is room for a node for each token left.
#[derive(Drop)]
pub(crate) struct Reader<'a> {
    tokens: &'a Tokens<'a>,
    at: usize,
    pub(crate) tree: Tree,
    ghost within: { at ≤ length (symbols_of tokens.now) },
    ghost short: { length (symbols_of tokens.now) ≤ 500 },
    ghost room: { length (nodes_of tree) + length (symbols_of tokens.now) ≤ 500 + at },
}
