// Steps over single tokens, and new nodes.
ghost use Rattle.std.specs.Prelude.{◌≡◌, ◌+◌, ◌<◌, ◌≤◌, drop, length};
ghost use Rattle.grammar.specs.declared.Refusal.TheVariants.{Unexpected};
ghost use Rattle.grammar.specs.Symbol.{Additive, FieldName, Number, Relational};
ghost use Rattle.rule.specs.Built.{nodes_of};
ghost use Rattle.rule.specs.Order.{PartsBelow};
ghost use Rattle.rule.specs.Spots.{next_tag};
ghost use Rattle.rule.specs.Stored.{symbols_of, place_in};
ghost use Rattle.rule.specs.Readers.{symbols_in, Begins, Stepped, Eaten, Taken, Expected, Added};

use crate::node::Node;
use crate::reader::Reader;
use crate::tokens::Tokens;
use crate::tree::Tree;
use grammar::{Field, Refusal, Relation, Sign, Tag};

impl<'a> Reader<'a> {
    pub(crate) fn new(tokens: &'a Tokens<'a>) -> Reader<'a>
        requires { length (symbols_of tokens.now) ≤ 500 }
        ensures { Begins tokens.now result }
    {
        Reader {
            tokens,
            at: 0,
            tree: Tree::new(),
        }
    }

    // The tag of the next token, if there is one.
    pub(super) fn peek(&self) -> Option<Tag>
        ensures { result ≡ next_tag (drop self.now.at (symbols_in self.now)) }
    {
        self.tokens.tag(self.at)
    }

    // The next token is one with which no rule can go on.
    pub(super) fn unexpected(&self) -> Refusal
        ensures { result ≡ Unexpected (place_in self.now.tokens.now self.now.at) }
    {
        self.tokens.unexpected(self.at)
    }

    // Steps over the next token if it has this tag.
    pub(super) fn eat(&mut self, tag: Tag) -> bool
        ensures { Eaten tag self.old self.new result }
    {
        if self.peek() == Some(tag) {
            self.at += 1;
            return true;
        }
        false
    }

    // Steps over the next token, which must have this tag.
    pub(super) fn expect(&mut self, tag: Tag) -> Result<(), Refusal>
        ensures { Expected tag self.old self.new result }
    {
        if self.eat(tag) {
            return Ok(());
        }
        Err(self.unexpected())
    }

    // `sign`, `relation` and `field` are not one function: each would still pass it a `match` on the tag, for its own variant.
    pub(super) fn sign(&mut self) -> Option<Sign>
        ensures { Taken Additive self.old self.new result }
    {
        let Tag::Additive(sign) = self.peek()? else {
            return None;
        };
        self.at += 1;
        Some(sign)
    }

    pub(super) fn relation(&mut self) -> Option<Relation>
        ensures { Taken Relational self.old self.new result }
    {
        let Tag::Relational(relation) = self.peek()? else {
            return None;
        };
        self.at += 1;
        Some(relation)
    }

    pub(super) fn field(&mut self) -> Option<Field>
        ensures { Taken FieldName self.old self.new result }
    {
        let Tag::FieldName(field) = self.peek()? else {
            return None;
        };
        self.at += 1;
        Some(field)
    }

    pub(super) fn number(&mut self) -> Option<u32>
        ensures { Taken Number self.old self.new result }
    {
        let at = self.at;
        if self.eat(Tag::Number) {
            return Some(self.tokens.number(at));
        }
        None
    }

    // Puts a node into the tree, whose parts are there.
    pub(super) fn add(&mut self, node: Node) -> u16
        requires room { length (nodes_of self.old.tree) + length (symbols_in self.old) < 500 + self.old.at }
        requires parts { PartsBelow (length (nodes_of self.old.tree)) node }
        ensures { Added node self.old self.new result }
    {
        self.tree.add(node)
    }
}
