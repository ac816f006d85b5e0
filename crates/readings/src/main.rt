// Reads the rule texts of standard input into one place for a rule, and prints what comes of each. A line of the input is a
// watch number, a space and the bytes of a text.
#![tactic(auto)]

mod input;

use canonical::Canonical;
use fields::Lines;
use input::Case;
use rule::Rule;
use std::io;
use std::io::Read;

// More bytes of input than this are not looked at. Three programs have these lines; a crate for them would have more lines than they are.
const LIMIT: u64 = 1_000_000;

fn main(rt: HostRuntime) -> io::Result<()> {
    let mut bytes = Vec::new(rt.alloc());
    let _ = rt.stdin().take(LIMIT).read_to_end(&mut bytes)?;
    answer_all(&rt, bytes.as_slice())
}

// Answers the lines in turn, from a place that holds a new rule at first.
fn answer_all(rt: &impl Print, input: &[u8]) -> io::Result<()> {
    let mut rule = Rule::new();
    for line in Lines::new(input) {
        match Case::of(line) {
            Some(case) => answer(rt, &mut rule, case)?,
            None => println!(rt; "bad line")?,
        }
    }
    Ok(())
}

// Reads a case into the place and prints the answer, with what the place then holds.
fn answer(rt: &impl Print, rule: &mut Rule, case: Case<'_>) -> io::Result<()> {
    let outcome = rule.read(case.watch, case.text);
    let watch = rule.watch();
    let tokens = rule.tokens();
    let claims = rule.claims();
    let tree = Canonical::of(rule);
    match outcome {
        Ok(()) => println!(rt; "read {watch}: {tokens} tokens, {claims} claims, {tree}"),
        Err(refusal) => println!(rt; "refused {refusal}; holds {watch}: {tree}"),
    }
}
