// Reading a text into the place for a rule.
ghost use Rattle.std.specs.Prelude.{◌≡◌, ◌<◌, ◌≤◌, length, pos, MatchResult};
ghost use Rattle.grammar.specs.declared.Refusal.TheVariants.{WatchNumber, TextTooLong};
ghost use Rattle.grammar.specs.Tree.{claim, truth};
ghost use Rattle.grammar.specs.Limits.{text_limit, claiming, count};
ghost use Rattle.grammar.specs.Reading.{Numbered};
ghost use Rattle.rule.specs.Stored.{symbols_of};
ghost use Rattle.rule.specs.Finished.{RuleOf};
ghost use Rattle.rule.specs.Held.{watch_of, tokens_of, rule_tree, Parsed, Outcome, ReadWhenAllowed, RefusedWhenNot};

use crate::limits::{few, shallow, uncrowded};
use crate::node::Node;
use crate::reader::Reader;
use crate::rule::Rule;
use crate::tokens::Tokens;
use crate::tree::Tree;
use grammar::Refusal;

const TEXT_LIMIT: usize = 4096;

// A number that a watch may have.
fn watch_number(n: i32) -> Result<u16, Refusal>
    ensures { MatchResult result (λ w. (pos w ≡ n) × Numbered n) (λ e. (e ≡ WatchNumber) × (Numbered n → ⊥)) }
{
    u16::try_from(n)
        .ok()
        .filter(|watch| *watch != 0)
        .ok_or(Refusal::WatchNumber)
}

fn short(text: &[u8]) -> Result<(), Refusal>
    ensures { MatchResult result (λ _. length text.now ≤ text_limit) (λ e. (e ≡ TextTooLong) × (text_limit < length text.now)) }
{
    if text.len() > TEXT_LIMIT {
        return Err(Refusal::TextTooLong);
    }
    Ok(())
}

impl Rule {
    // The rule `[true]` under watch 1.
    pub fn new() -> Rule
        ensures watch { watch_of result ≡ 1 }
        ensures tree { rule_tree result ≡ claim truth }
        ensures tokens { tokens_of result ≡ 3 }
    {
        let mut tree = Tree::new();
        let truth = tree.add(Node::Truth);
        let root = tree.add(Node::Claim(truth));
        Rule {
            watch: 1,
            tree,
            root,
            tokens: 3,
            claims: 1,
        }
    }

    // The rule that tokens are, within the limits. Apart from cutting, so that a text refused before this costs no memory for a tree.
    fn of(watch: u16, tokens: &Tokens, claims: u8) -> Result<Rule, Refusal>
        requires least { 1 ≤ watch }
        requires few { length (symbols_of tokens.now) ≤ 500 }
        requires counted { claims ≡ count claiming (symbols_of tokens.now) }
        requires limited { claims ≤ 60 }
        ensures { RuleOf watch tokens.now result }
    {
        let mut reader = Reader::new(tokens);
        let root = reader.whole()?;
        Ok(Rule {
            watch,
            tree: reader.tree,
            root,
            // there are at most 500, so it fits; `try_from` would need a branch that never runs
            tokens: tokens.len() as u16,
            claims,
        })
    }

    // The rule that a text is, under a watch number.
    fn parsed(watch: i32, text: &[u8]) -> Result<Rule, Refusal>
        ensures { Parsed watch text.now result }
    {
        let watch = watch_number(watch)?;
        short(text)?;
        let tokens = Tokens::cut(text)?;
        few(&tokens)?;
        shallow(&tokens)?;
        let claims = uncrowded(&tokens)?;
        Rule::of(watch, &tokens, claims)
    }

    // Reads a text into this place under a watch number, or refuses it and leaves the place as it is.
    pub fn read(&mut self, watch: i32, text: &[u8]) -> Result<(), Refusal>
        ensures outcome { Outcome watch text.now self.old self.new result }
        ensures allowed { ReadWhenAllowed watch text.now self.new result }
        ensures refused { RefusedWhenNot watch text.now result }
    {
        *self = Rule::parsed(watch, text)?;
        Ok(())
    }
}
