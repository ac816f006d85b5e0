// The canonical text of a rule's tree, in full brackets. That this text is written is proved. It is made to be a text of the same
// tree by the grammar, which is only tested; its brackets can take it over the limits.
#![tactic(auto)]

ghost use Rattle.std.specs.Prelude.{◌≡◌, Some};
ghost use Rattle.rule.specs.Held.{rule_tree};
ghost use Rattle.canonical.specs.Text.{pattern_text};

mod part;

use part::Part;
use rule::Rule;
use std::fmt;

// A rule that is shown by its canonical text.
#[derive(Clone, Copy)]
pub struct Canonical<'a> {
    rule: &'a Rule,
}

impl<'a> Canonical<'a> {
    pub fn of(rule: &'a Rule) -> Canonical<'a>
        ensures { result.rule.now ≡ rule.now }
    {
        Canonical { rule }
    }
}

impl fmt::Display for Canonical<'_> {
    ghost output = { λ c. Some (pattern_text (rule_tree c.rule.now)) };

    fn fmt<W: fmt::Write>(&self, f: &mut fmt::Formatter<W>) -> fmt::Result {
        write!(f, "{}", Part::root(self.rule))
    }
}
