// Numbered nodes, each after its parts, with the summaries of their patterns.
ghost use Rattle.std.specs.Prelude.{◌≡◌, ◌<◌, ◌≤◌, true, [], ◌∷◌, ◌++◌, length};
ghost use Rattle.rule.specs.Order.{ordered, PartsBelow};
ghost use Rattle.rule.specs.Trees.{made, things, thing, summaries_of, summary_with, node_at, summary_at, nodes_in, summaries_in};

use crate::entry::Entry;
use crate::node::Node;
use crate::summary::Summary;
use arrayvec::ArrayVec;

#[derive(Drop)]
pub(crate) struct Tree {
    entries: ArrayVec<Entry, 500>,
    ghost few: { length entries.items ≤ 500 },
    ghost down: { ordered 0 (nodes_in entries.items) ≡ true },
    ghost summed: { summaries_in entries.items ≡ summaries_of (nodes_in entries.items) },
}

impl Tree {
    ghost use Rattle.rule.specs.Built.{nodes_of};

    // A tree with no nodes.
    pub(crate) fn new() -> Tree
        ensures { nodes_of result ≡ [] }
    {
        Tree {
            entries: ArrayVec::new(),
        }
    }

    // The entry n, or that of an empty pattern where there is none: it is no option, since what a node stands for is a total function.
    fn entry(&self, n: u16) -> Entry
        ensures node { result.node ≡ node_at (nodes_of self.now) n }
        ensures summary { result.summary ≡ summary_at (nodes_of self.now) n }
    {
        self.entries
            .get(usize::from(n))
            .copied()
            .unwrap_or_else(Entry::empty)
    }

    // The node n, or an empty pattern where there is none.
    pub(crate) fn node(&self, n: u16) -> Node
        ensures value { result ≡ node_at (nodes_of self.now) n }
        ensures meaning { thing (nodes_of self.now) n ≡ made (things [] (nodes_of self.now)) result }
        ensures below { PartsBelow n result }
    {
        self.entry(n).node
    }

    // The summary of the pattern at the node n; that of an empty pattern where there is none, as the definition has it.
    pub(crate) fn summary(&self, n: u16) -> Summary
        ensures { result ≡ summary_at (nodes_of self.now) n }
    {
        self.entry(n).summary
    }

    // The summary of a node that is put after these.
    fn summarize(&self, node: Node) -> Summary
        ensures { result ≡ summary_with (nodes_of self.now) node }
    {
        match node {
            Node::Claim(_) => Summary::of_claim(),
            Node::Alternative(a, b) => self.summary(a).alternative(self.summary(b)),
            Node::Sequence(a, b) => self.summary(a).sequence(self.summary(b)),
            Node::Star(a) => self.summary(a).star(),
            _ => Summary::default(),
        }
    }

    // One node more, whose parts are there. That they are depends on the node's number, so no type of a node can say it. The
    // cast fits; `try_from` would need a branch that never runs.
    pub(crate) fn add(&mut self, node: Node) -> u16
        requires room { length (nodes_of self.old) < 500 }
        requires parts { PartsBelow (length (nodes_of self.old)) node }
        ensures place { result ≡ length (nodes_of self.old) }
        ensures more { nodes_of self.new ≡ nodes_of self.old ++ node ∷ [] }
    {
        let n = self.entries.len();
        let summary = self.summarize(node);
        self.entries.push(Entry { node, summary });
        n as u16
    }
}
