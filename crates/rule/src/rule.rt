// The place for a rule: it always holds one, under a watch number.
ghost use Rattle.std.specs.Prelude.{◌≡◌, ◌<◌, ◌≤◌, length};
ghost use Rattle.grammar.specs.Tree.{claims_in};
ghost use Rattle.rule.specs.Trees.{pattern, nodes_in};

use crate::tree::Tree;

mod held;
mod reading;

#[derive(Drop)]
pub struct Rule {
    watch: u16,
    tree: Tree,
    root: u16,
    tokens: u16,
    claims: u8,
    ghost least: { 1 ≤ watch },
    ghost most: { watch ≤ 65535 },
    ghost rooted: { root < length (nodes_in tree.entries.items) },
    ghost few: { tokens ≤ 500 },
    ghost counted: { claims ≡ claims_in (pattern (nodes_in tree.entries.items) root) },
    ghost limited: { claims ≤ 60 },
}
