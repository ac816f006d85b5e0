// Readers of patterns, up to a whole rule. What is joined groups from the left.
ghost use Rattle.std.specs.Prelude.{◌≡◌};
ghost use Rattle.rule.specs.Trees.{as_pattern};
ghost use Rattle.rule.specs.Readers.{Reads, BaseEnds, BaseFails, PieceEnds, ChainEnds, ChainFails, RuleEnds, RuleFails, WholeRead};

use crate::node::Node;
use crate::reader::Reader;
use grammar::{Refusal, Tag};

impl Reader<'_> {
    #[cycle(patterns)]
    pub(super) fn base(&mut self) -> Result<u16, Refusal>
        ensures { Reads as_pattern BaseEnds BaseFails self.old self.new result }
    {
        if self.eat(Tag::Underscore) {
            return Ok(self.add(Node::Empty));
        }
        if self.eat(Tag::LeftRound) {
            let inner = self.rule()?;
            self.expect(Tag::RightRound)?;
            return Ok(inner);
        }
        self.expect(Tag::LeftSquare)?;
        let inner = self.claim()?;
        self.expect(Tag::RightSquare)?;
        Ok(self.add(Node::Claim(inner)))
    }

    #[cycle(patterns)]
    pub(super) fn piece(&mut self) -> Result<u16, Refusal>
        ensures { Reads as_pattern PieceEnds BaseFails self.old self.new result }
    {
        let mut piece = self.base()?;
        while self.eat(Tag::Star) {
            piece = self.add(Node::Star(piece));
        }
        Ok(piece)
    }

    // Why this is not one function with `both`: see there.
    #[cycle(patterns)]
    pub(super) fn chain(&mut self) -> Result<u16, Refusal>
        ensures { Reads as_pattern ChainEnds ChainFails self.old self.new result }
    {
        let mut left = self.piece()?;
        while self.eat(Tag::Dot) {
            let right = self.piece()?;
            left = self.add(Node::Sequence(left, right));
        }
        Ok(left)
    }

    // Why this is not one function with `both`: see there.
    #[cycle(patterns)]
    pub(super) fn rule(&mut self) -> Result<u16, Refusal>
        ensures { Reads as_pattern RuleEnds RuleFails self.old self.new result }
    {
        let mut left = self.chain()?;
        while self.eat(Tag::Bar) {
            let right = self.chain()?;
            left = self.add(Node::Alternative(left, right));
        }
        Ok(left)
    }

    // All tokens as one rule, by a reader that stands at the first; the root of its tree. The tree stays with the reader, since it would be
    // copied with the answer.
    pub(crate) fn whole(&mut self) -> Result<u16, Refusal>
        requires { self.old.at ≡ 0 }
        ensures { WholeRead self.old.tokens.now self.new result }
    {
        let root = self.rule()?;
        if self.at < self.tokens.len() {
            return Err(self.unexpected());
        }
        Ok(root)
    }
}
