// The text of the parts of a rule's tree.
ghost use Rattle.std.specs.Prelude.{◌≡◌, Some};
ghost use Rattle.std.specs.Fmt.{WritesOnOk};
ghost use Rattle.rule.specs.Held.{thing_of, root_of};
ghost use Rattle.canonical.specs.Text.{two as two_texts};
ghost use Rattle.canonical.specs.Parts.{part_text, kind_text};
ghost use Rattle.canonical.specs.declared.part.Kind.TheVariants.{Pattern, Claim, Sum};

use grammar::Sign;
use rule::{Node, Rule};
use std::fmt;
use std::fmt::Display;

// What a node is read as. There is one type of parts and not three, which would be twins of one another.
#[derive(Clone, Copy)]
pub(crate) enum Kind {
    Pattern,
    Claim,
    Sum,
}

// A node of a rule, read as a thing of a kind. A node of another kind stands for the simplest thing of this one.
#[derive(Clone, Copy)]
pub(crate) struct Part<'a> {
    rule: &'a Rule,
    node: u16,
    kind: Kind,
}

impl fmt::Display for Part<'_> {
    ghost output = { λ p. Some (part_text p) };

    // The parts print by `fmt` and not by a format, through which no recursion is proved.
    #[cycle(part)]
    fn fmt<W: fmt::Write>(&self, f: &mut fmt::Formatter<W>) -> fmt::Result {
        match self.kind {
            Kind::Pattern => self.pattern(f),
            Kind::Claim => self.claim(f),
            Kind::Sum => self.sum(f),
        }
    }
}

impl<'a> Part<'a> {
    // The whole tree.
    pub(crate) fn root(rule: &'a Rule) -> Part<'a>
        ensures rule { result.rule.now ≡ rule.now }
        ensures node { result.node ≡ root_of rule.now }
        ensures kind { result.kind ≡ Pattern }
    {
        Part {
            rule,
            node: rule.root(),
            kind: Kind::Pattern,
        }
    }

    // Another node of the rule.
    fn part(&self, kind: Kind, node: u16) -> Part<'a>
        ensures rule { result.rule.now ≡ self.now.rule.now }
        ensures node { result.node ≡ node }
        ensures kind { result.kind ≡ kind }
    {
        Part {
            kind,
            node,
            ..*self
        }
    }

    // Two parts of this one's kind in round brackets.
    #[cycle(part)]
    fn two<W: fmt::Write>(
        &self,
        a: u16,
        mark: &str,
        b: u16,
        f: &mut fmt::Formatter<W>,
    ) -> fmt::Result
        ensures { WritesOnOk W.write_str_gives f.old result
            (two_texts (kind_text self.now.kind (thing_of self.now.rule.now a)) mark.now
            (kind_text self.now.kind (thing_of self.now.rule.now b))) f.new }
    {
        f.write_str("(")?;
        self.part(self.kind, a).fmt(f)?;
        f.write_str(mark)?;
        self.part(self.kind, b).fmt(f)?;
        f.write_str(")")
    }

    #[cycle(part)]
    fn pattern<W: fmt::Write>(&self, f: &mut fmt::Formatter<W>) -> fmt::Result
        requires { self.now.kind ≡ Pattern }
        ensures { WritesOnOk W.write_str_gives f.old result (part_text self.now) f.new }
    {
        match self.rule.node(self.node) {
            Node::Claim(a) => {
                f.write_str("[")?;
                self.part(Kind::Claim, a).fmt(f)?;
                f.write_str("]")
            }
            Node::Alternative(a, b) => self.two(a, " | ", b, f),
            Node::Sequence(a, b) => self.two(a, " . ", b, f),
            Node::Star(a) => {
                self.part(Kind::Pattern, a).fmt(f)?;
                f.write_str("*")
            }
            _ => f.write_str("_"),
        }
    }

    #[cycle(part)]
    fn claim<W: fmt::Write>(&self, f: &mut fmt::Formatter<W>) -> fmt::Result
        requires { self.now.kind ≡ Claim }
        ensures { WritesOnOk W.write_str_gives f.old result (part_text self.now) f.new }
    {
        match self.rule.node(self.node) {
            Node::Implication(a, b) => self.two(a, " => ", b, f),
            Node::Disjunction(a, b) => self.two(a, " or ", b, f),
            Node::Conjunction(a, b) => self.two(a, " and ", b, f),
            Node::Negation(a) => {
                f.write_str("not ")?;
                self.part(Kind::Claim, a).fmt(f)
            }
            Node::Presence(name) => write!(f, "has {name}"),
            Node::Comparison(relation, a, b) => {
                self.part(Kind::Sum, a).fmt(f)?;
                write!(f, " {relation} ")?;
                self.part(Kind::Sum, b).fmt(f)
            }
            _ => f.write_str("true"),
        }
    }

    #[cycle(part)]
    fn sum<W: fmt::Write>(&self, f: &mut fmt::Formatter<W>) -> fmt::Result
        requires { self.now.kind ≡ Sum }
        ensures { WritesOnOk W.write_str_gives f.old result (part_text self.now) f.new }
    {
        match self.rule.node(self.node) {
            Node::First(Sign::Plus, term) => write!(f, "{term}"),
            Node::First(sign, term) => write!(f, "{sign}{term}"),
            Node::More(a, sign, term) => {
                self.part(Kind::Sum, a).fmt(f)?;
                write!(f, " {sign} {term}")
            }
            _ => f.write_str("0"),
        }
    }
}
