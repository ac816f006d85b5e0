// What the place for a rule holds.
ghost use Rattle.std.specs.Prelude.{◌≡◌, ◌<◌, ◌≤◌};
ghost use Rattle.grammar.specs.Tree.{claims_in};
ghost use Rattle.rule.specs.Order.{PartsBelow};
ghost use Rattle.rule.specs.Held.{watch_of, tokens_of, rule_tree, root_of, size_of, node_of, thing_of, meaning, summary_of};

use crate::node::Node;
use crate::rule::Rule;
use crate::summary::Summary;

impl Rule {
    // The number of the watch that carries this rule.
    pub fn watch(&self) -> u16
        ensures value { result ≡ watch_of self.now }
        ensures least { 1 ≤ result }
        ensures most { result ≤ 65535 }
    {
        self.watch
    }

    // How many tokens its text had.
    pub fn tokens(&self) -> u16
        ensures value { result ≡ tokens_of self.now }
        ensures bound { result ≤ 500 }
    {
        self.tokens
    }

    // How many claims its tree has.
    pub fn claims(&self) -> u8
        ensures value { result ≡ claims_in (rule_tree self.now) }
        ensures bound { result ≤ 60 }
    {
        self.claims
    }

    // The node of the whole tree.
    pub fn root(&self) -> u16
        ensures value { result ≡ root_of self.now }
        ensures within { result < size_of self.now }
    {
        self.root
    }

    // The node n; an empty pattern where there is none, as the definition has it. Its parts have lower numbers.
    pub fn node(&self, n: u16) -> Node
        ensures value { result ≡ node_of self.now n }
        ensures meaning { thing_of self.now n ≡ meaning self.now result }
        ensures below { PartsBelow n result }
    {
        self.tree.node(n)
    }

    // The summary of the pattern at the node n; that of an empty pattern where no pattern is, as the definition has it.
    pub fn summary(&self, n: u16) -> Summary
        ensures { result ≡ summary_of self.now n }
    {
        self.tree.summary(n)
    }
}
