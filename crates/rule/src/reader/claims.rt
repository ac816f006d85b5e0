// Readers of claims. What is joined groups from the left.
ghost use Rattle.rule.specs.Trees.{as_claim};
ghost use Rattle.rule.specs.Readers.{Reads, SingleEnds, SingleFails, BothEnds, BothFails, EitherEnds, EitherFails, ClaimEnds, ClaimFails};

use crate::node::Node;
use crate::reader::Reader;
use grammar::{Refusal, Tag};

impl Reader<'_> {
    #[cycle(claims)]
    pub(super) fn single(&mut self) -> Result<u16, Refusal>
        ensures { Reads as_claim SingleEnds SingleFails self.old self.new result }
    {
        if self.eat(Tag::Not) {
            let inner = self.single()?;
            return Ok(self.add(Node::Negation(inner)));
        }
        if self.eat(Tag::LeftRound) {
            let inner = self.claim()?;
            self.expect(Tag::RightRound)?;
            return Ok(inner);
        }
        if self.eat(Tag::True) {
            return Ok(self.add(Node::Truth));
        }
        if self.eat(Tag::Has) {
            let name = self.name()?;
            return Ok(self.add(Node::Presence(name)));
        }
        self.comparison()
    }

    // `both`, `either`, `chain` and `rule` are not one function of an operand: in a cycle of calls a closure has to state its contract
    // in the source, so each call of that function would be longer than the loop that it is for.
    #[cycle(claims)]
    pub(super) fn both(&mut self) -> Result<u16, Refusal>
        ensures { Reads as_claim BothEnds BothFails self.old self.new result }
    {
        let mut left = self.single()?;
        while self.eat(Tag::And) {
            let right = self.single()?;
            left = self.add(Node::Conjunction(left, right));
        }
        Ok(left)
    }

    #[cycle(claims)]
    pub(super) fn either(&mut self) -> Result<u16, Refusal>
        ensures { Reads as_claim EitherEnds EitherFails self.old self.new result }
    {
        let mut left = self.both()?;
        while self.eat(Tag::Or) {
            let right = self.both()?;
            left = self.add(Node::Disjunction(left, right));
        }
        Ok(left)
    }

    // A claim, up to the bracket that closes it.
    #[cycle(claims)]
    pub(super) fn claim(&mut self) -> Result<u16, Refusal>
        ensures { Reads as_claim ClaimEnds ClaimFails self.old self.new result }
    {
        let left = self.either()?;
        if self.eat(Tag::Arrow) {
            let right = self.either()?;
            return Ok(self.add(Node::Implication(left, right)));
        }
        Ok(left)
    }
}
