// Readers of names, terms, sums and comparisons.
ghost use Rattle.rule.specs.Trees.{as_claim, as_sum};
ghost use Rattle.rule.specs.Readers.{Led, Finds, Reads, NameEnds, NameFails, TermEnds, TermFails, First, SumEnds, SumFails, ComparisonEnds, ComparisonFails};

use crate::node::Node;
use crate::reader::Reader;
use grammar::{Name, Refusal, Sign, Tag, Term};

impl Reader<'_> {
    pub(super) fn name(&mut self) -> Result<Name, Refusal>
        ensures { Finds NameEnds NameFails self.old self.new result }
    {
        let Some(field) = self.field() else {
            return Err(self.unexpected());
        };
        if self.eat(Tag::Quote) {
            return Ok(Name::Newest(field));
        }
        Ok(Name::Plain(field))
    }

    pub(super) fn term(&mut self) -> Result<Term, Refusal>
        ensures { Finds TermEnds TermFails self.old self.new result }
    {
        if let Some(number) = self.number() {
            return Ok(Term::Constant(number));
        }
        let name = self.name()?;
        Ok(Term::Named(name))
    }

    // The sign before a sum.
    pub(super) fn lead(&mut self) -> Sign
        ensures { Led self.old self.new result }
    {
        if self.eat(Tag::Additive(Sign::Minus)) {
            return Sign::Minus;
        }
        Sign::Plus
    }

    pub(super) fn first(&mut self) -> Result<u16, Refusal>
        ensures { Reads as_sum First SumFails self.old self.new result }
    {
        let sign = self.lead();
        let term = self.term()?;
        Ok(self.add(Node::First(sign, term)))
    }

    // 1 to 8 terms.
    pub(super) fn sum(&mut self) -> Result<u16, Refusal>
        ensures { Reads as_sum SumEnds SumFails self.old self.new result }
    {
        let mut sum = self.first()?;
        for terms in 1_u8..8 {
            let Some(sign) = self.sign() else {
                return Ok(sum);
            };
            let term = self.term()?;
            sum = self.add(Node::More(sum, sign, term));
        }
        Ok(sum)
    }

    pub(super) fn comparison(&mut self) -> Result<u16, Refusal>
        ensures { Reads as_claim ComparisonEnds ComparisonFails self.old self.new result }
    {
        let left = self.sum()?;
        let Some(relation) = self.relation() else {
            return Err(self.unexpected());
        };
        let right = self.sum()?;
        Ok(self.add(Node::Comparison(relation, left, right)))
    }
}
