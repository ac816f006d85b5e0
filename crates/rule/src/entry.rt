// A node as it is stored.
ghost use Rattle.std.specs.Prelude.{◌≡◌};
ghost use Rattle.rule.specs.declared.node.Node.TheVariants.{Empty};
ghost use Rattle.rule.specs.Summaries.{summary_of_empty};

use crate::node::Node;
use crate::summary::Summary;

// A node, and the summary of its pattern.
#[derive(Clone, Copy, Debug, PartialEq, Eq)]
pub(crate) struct Entry {
    pub node: Node,
    pub summary: Summary,
}

impl Entry {
    // The empty pattern.
    pub(crate) fn empty() -> Entry
        ensures node { result.node ≡ Empty }
        ensures summary { result.summary ≡ summary_of_empty }
    {
        Entry {
            node: Node::Empty,
            summary: Summary::default(),
        }
    }
}

// What an `ArrayVec` keeps in its unused places; nothing reads it. It is zeros throughout, so that 500 of them are filled in at once: to
// fill them one by one takes as long as to read a short text.
impl Default for Entry {
    fn default() -> Entry {
        Entry {
            node: Node::Empty,
            summary: Summary {
                nullable: false,
                claims: 0,
                last: 0,
            },
        }
    }
}
