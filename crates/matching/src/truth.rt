// Whether a claim is true of a row. A plain name reads that row, and a name with `'` the newest row.
ghost use Rattle.std.specs.Prelude.{◌≡◌, ◌+◌};
ghost use Rattle.rule.specs.Trees.{as_sum, as_claim};
ghost use Rattle.rule.specs.Held.{thing_of};
ghost use Rattle.matching.specs.Truth.{field_of, name_value, term_value, signed_by, sum_value, related, compared, claim_true};
ghost use Rattle.matching.specs.Sizes.{Sized};

use engine::Row;
use grammar::{Field, Name, Relation, Sign, Term};
use rule::{Node, Rule};

// None where the value is missing, as in all that follow.
fn field(row: &Row, field: Field) -> Option<i32>
    ensures { result ≡ field_of row.now field }
{
    match field {
        // an enum's number, for which there is no `From`
        Field::Op => Some(row.op as i32),
        Field::Arg => row.arg,
        Field::C1 => row.values.c1,
        Field::C2 => row.values.c2,
        Field::C3 => row.values.c3,
        Field::C4 => row.values.c4,
        Field::C5 => row.values.c5,
        Field::C6 => row.values.c6,
    }
}

// A term is never the least `i64`, which has no negative.
fn with_sign(sign: Sign, value: Option<i64>) -> Option<i64>
    requires { Sized 1 value }
    ensures value { result ≡ signed_by sign value }
    ensures size { Sized 1 result }
{
    value.map(|number| match sign {
        Sign::Plus => number,
        Sign::Minus => -number,
    })
}

fn related(relation: Relation, x: i64, y: i64) -> bool
    ensures { result ≡ related relation x y }
{
    match relation {
        Relation::Equal => x == y,
        Relation::NotEqual => x != y,
        Relation::Less => x < y,
        Relation::LessOrEqual => x <= y,
        Relation::Greater => x > y,
        Relation::GreaterOrEqual => x >= y,
    }
}

// False if either side is missing.
fn compare(relation: Relation, left: Option<i64>, right: Option<i64>) -> bool
    ensures { result ≡ compared relation left right }
{
    left.zip(right)
        .is_some_and(|(x, y)| related(relation, x, y))
}

// What a claim is judged by: the rule that it stands in, a row, and the newest row.
#[derive(Clone, Copy)]
pub(crate) struct Context<'a> {
    pub rule: &'a Rule,
    pub newest: &'a Row,
    pub row: &'a Row,
}

impl Context<'_> {
    fn name(&self, name: Name) -> Option<i32>
        ensures { result ≡ name_value self.now.newest.now self.now.row.now name }
    {
        match name {
            Name::Plain(read) => field(self.row, read),
            Name::Newest(read) => field(self.newest, read),
        }
    }

    fn term(&self, term: Term) -> Option<i64>
        ensures value { result ≡ term_value self.now.newest.now self.now.row.now term }
        ensures size { Sized 1 result }
    {
        match term {
            Term::Constant(number) => Some(i64::from(number)),
            Term::Named(name) => self.name(name).map(i64::from),
        }
    }

    // The value of the sum at the node n. It has at most n + 1 terms, since a part has a lower number, so nothing overflows.
    fn sum(&self, n: u16) -> Option<i64>
        ensures value { result ≡ sum_value self.now.newest.now self.now.row.now (as_sum (thing_of self.now.rule.now n)) }
        ensures size { Sized (n + 1) result }
    {
        match self.rule.node(n) {
            Node::First(sign, first) => with_sign(sign, self.term(first)),
            Node::More(before, sign, last) => {
                Some(self.sum(before)? + with_sign(sign, self.term(last))?)
            }
            // what is no sum
            _ => Some(0),
        }
    }

    // Whether the claim at the node n is true of the row.
    pub(crate) fn holds(&self, n: u16) -> bool
        ensures { result ≡ claim_true self.now.newest.now self.now.row.now (as_claim (thing_of self.now.rule.now n)) }
    {
        match self.rule.node(n) {
            Node::Implication(a, b) => !self.holds(a) || self.holds(b),
            Node::Disjunction(a, b) => self.holds(a) || self.holds(b),
            Node::Conjunction(a, b) => self.holds(a) && self.holds(b),
            Node::Negation(a) => !self.holds(a),
            Node::Presence(name) => self.name(name).is_some(),
            Node::Comparison(relation, a, b) => compare(relation, self.sum(a), self.sum(b)),
            // truth, and what is no claim
            _ => true,
        }
    }
}
