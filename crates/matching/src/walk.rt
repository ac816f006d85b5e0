// Marks stand on the claims of a rule that have just taken a row. A walk over the tree moves them past one more row.
ghost use Rattle.std.specs.Prelude.{◌≡◌, ◌+◌, ◌-◌, ◌<◌, ◌≤◌, ◌&&◌, ◌||◌, reverse, length, bit_or};
ghost use Rattle.std.specs.Iterator.Adapters.{rev_source};
ghost use Rattle.std.specs.Slice.{IsGetResult};
ghost use Rattle.std.specs.Slice.Iter.{iter_rest};
ghost use Rattle.grammar.specs.Tree.{claims_in};
ghost use Rattle.rule.specs.Summaries.{after};
ghost use Rattle.rule.specs.Held.{rule_tree};
ghost use Rattle.matching.specs.Marks.{meets};
ghost use Rattle.matching.specs.Passing.{Answered, pattern_at, Marked, Shifted};

use crate::truth::Context;
use engine::Row;
use rule::{Node, Rule, Summary};
use std::iter::Rev;
use std::slice::Iter;

// Whether a mark stands at the end of a pattern whose claims are counted after so many others.
fn left(pattern: Summary, others: u8, marks: u64) -> bool
    ensures { result ≡ meets marks (after others pattern.last) }
{
    marks & pattern.last_after(others) != 0
}

// Whether what follows a pattern is entered, if the pattern is entered so.
fn onward(pattern: Summary, others: u8, entering: bool, marks: u64) -> bool
    ensures { result ≡ (entering && pattern.nullable || meets marks (after others pattern.last)) }
{
    entering && pattern.nullable || left(pattern, others, marks)
}

// The marks of two patterns side by side, or one after the other.
fn joined(one: u64, other: u64) -> u64
    ensures { result ≡ bit_or one other }
{
    one | other
}

// The newest row, if there is one.
fn newest(rows: &[Row]) -> Option<&Row>
    ensures { IsGetResult rows.now 0 (length rows.now - 1) result }
{
    rows.last()
}

// The rows, newest first: none is left out.
fn newest_first(rows: &[Row]) -> Rev<Iter<'_, Row>>
    ensures { iter_rest (rev_source result) ≡ rows.now }
{
    rows.iter().rev()
}

impl Context<'_> {
    // The mark of a claim that is entered and true of the row. The claim is tried only if it is entered.
    fn mark(&self, n: u16, others: u8, entering: bool) -> u64
        requires { others < 64 }
        ensures { Marked self.now n others entering result }
    {
        if entering && self.holds(n) {
            1 << others
        } else {
            0
        }
    }

    // The marks in the pattern at the node n after one more row, its claims counted after so many others.
    fn shift(&self, n: u16, others: u8, entering: bool, marks: u64) -> u64
        requires { others + claims_in (pattern_at self.now.rule.now n) ≤ 60 }
        ensures { Shifted self.now n others entering marks result }
    {
        match self.rule.node(n) {
            Node::Claim(c) => self.mark(c, others, entering),
            Node::Alternative(a, b) => {
                let before = others + self.rule.summary(a).claims;
                let one = self.shift(a, others, entering, marks);
                let other = self.shift(b, before, entering, marks);
                joined(one, other)
            }
            Node::Sequence(a, b) => {
                let first = self.rule.summary(a);
                let before = others + first.claims;
                let entered = onward(first, others, entering, marks);
                let front = self.shift(a, others, entering, marks);
                let back = self.shift(b, before, entered, marks);
                joined(front, back)
            }
            Node::Star(a) => {
                let entered = entering || left(self.rule.summary(a), others, marks);
                self.shift(a, others, entered, marks)
            }
            _ => 0,
        }
    }
}

// Whether some beginning of the rows, newest first, fits the rule; `rows` has the oldest first.
pub fn passes(rule: &Rule, rows: &[Row]) -> bool
    ensures { Answered (rule_tree rule.now) (reverse rows.now) result }
{
    let root = rule.root();
    let whole = rule.summary(root);
    if whole.nullable {
        return true;
    }
    let Some(newest) = newest(rows) else {
        return false;
    };
    let mut marks: u64 = 0;
    let mut entering = true;
    for row in newest_first(rows) {
        let context = Context { rule, newest, row };
        marks = context.shift(root, 0, entering, marks);
        entering = false;
        if left(whole, 0, marks) {
            return true;
        }
        if marks == 0 {
            return false;
        }
    }
    false
}
