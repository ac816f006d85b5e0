// The nodes of a rule's tree.
use grammar::{Name, Relation, Sign, Term};

// A part of a node is the number of another node, below its own: it is numbered and not boxed, since nothing here allocates.
#[derive(Clone, Copy, Debug, Default, PartialEq, Eq)]
pub enum Node {
    // patterns
    #[default]
    Empty,
    Claim(u16),
    Alternative(u16, u16),
    Sequence(u16, u16),
    Star(u16),
    // claims
    Implication(u16, u16),
    Disjunction(u16, u16),
    Conjunction(u16, u16),
    Negation(u16),
    Truth,
    Presence(Name),
    Comparison(Relation, u16, u16),
    // sums
    First(Sign, Term),
    More(u16, Sign, Term),
}
