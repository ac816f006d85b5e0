// A tour for newcomers: rule texts are read into one place for a rule, or refused.
#![tactic(auto)]

mod months;
mod shown;
mod stops;

use canonical::Canonical;
use grammar::Refusal;
use months::print_trials;
use rule::Rule;
use shown::{Caret, Cause, Count};
use std::io;
use stops::{Stop, stops};

const OPENING: &str = "\
An almanac house prints calendars, and nobody can correct a calendar that is printed.
Each day is a row, worked out elsewhere: the order that made it, op, with its argument, arg,
and six columns. Here c1 is the day of the cycle, c2 the year, c3 the month, c4 the day of
the month, c5 the days in that month, and c6 is free. An editor writes rules: patterns over
the rows seen so far, newest first. A claim about one row stands in square brackets, and c1'
is c1 of the newest row. Before a rule can stand watch, its text is read. This tour shows a
few texts, read or refused, one after another, in one place for a rule. `tree` is the rule
that it holds then, with all its brackets. A caret stands under the place where a refused
text goes wrong; a place is the count of the bytes before it.";

const TRIALS: &str = "\
Now rows are held against a rule. The table below has the first days of five months; month 3
is given 29 days and should have 30. Row by row, the rule is tried on all rows so far, newest
first. Rows pass when some beginning of them fits the rule, so this rule of one claim looks at
the newest row alone.";

const CLOSING: &str = "\
What is proved of this: a text is read exactly when grammar and limits allow it, as its only
tree; otherwise the refusal's number and place are exact, and the rule held stays the same.
What is written after `tree` is proved to be the canonical text of the tree that is held. The
same library reads the rules for the watches to come. Rows are said to pass exactly when they
do by the definition: some beginning of the rows, newest first, fits the tree of the rule, and
that for every rule and all rows.";

fn print_text(rt: &impl Print, text: &str) -> io::Result<()> {
    if text.is_empty() {
        return println!(rt; "  text:");
    }
    println!(rt; "  text: {text}")
}

fn print_rule(rt: &impl Print, rule: &Rule) -> io::Result<()> {
    let tree = Canonical::of(rule);
    println!(rt; "  tree: {tree}")
}

fn print_read(rt: &impl Print, rule: &Rule) -> io::Result<()> {
    let tokens = Count {
        number: rule.tokens(),
        thing: "token",
    };
    let claims = Count {
        number: u16::from(rule.claims()),
        thing: "claim",
    };
    println!(rt; "  read: {tokens}, {claims}")?;
    print_rule(rt, rule)
}

fn print_refusal(rt: &impl Print, refusal: &Refusal) -> io::Result<()> {
    let number = refusal.number();
    let place = refusal.place();
    println!(rt; "        {}", Caret { place })?;
    println!(rt;
        "  refused: number {number} ({}), at place {place}",
        Cause { refusal }
    )
}

// Reads the text of one stop into the place, and prints what comes of it.
fn visit(rt: &impl Print, place: &mut Rule, stop: &Stop) -> io::Result<()> {
    let heading = stop.heading;
    println!(rt; "\n{heading}")?;
    print_text(rt, stop.text)?;
    match place.read(stop.watch, stop.text.as_bytes()) {
        Ok(()) => print_read(rt, place),
        Err(refusal) => print_refusal(rt, &refusal),
    }
}

fn print_first(rt: &impl Print, place: &Rule) -> io::Result<()> {
    let watch = place.watch();
    println!(rt; "\nBefore any text is read, the place holds this rule, for watch {watch}.")?;
    print_rule(rt, place)
}

fn print_last(rt: &impl Print, place: &Rule) -> io::Result<()> {
    let watch = place.watch();
    println!(rt;
        "\nAfter all these refusals the place still holds the last rule read, for watch {watch}."
    )?;
    print_rule(rt, place)?;
    println!(rt; "")
}

fn main(rt: HostRuntime) -> io::Result<()> {
    let mut place = Rule::new();
    println!(rt; "{OPENING}")?;
    print_first(&rt, &place)?;
    for stop in stops() {
        visit(&rt, &mut place, stop)?;
    }
    print_last(&rt, &place)?;
    println!(rt; "{TRIALS}")?;
    print_trials(&rt)?;
    println!(rt; "")?;
    println!(rt; "{CLOSING}")
}
