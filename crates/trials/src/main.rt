// Reads rules and rows from standard input, and prints which rows pass. A line of the input is a rule's text and then the
// rows, oldest first, each after a `;`. The answer has a letter for each beginning of the rows, from none to all, or for all
// alone where the line begins with `=`.
#![tactic(auto)]

mod input;

use engine::Row;
use fields::Lines;
use input::Case;
use matching::passes;
use rule::Rule;
use std::alloc::{AllocError, Global};
use std::io;
use std::io::Read;

// More bytes of input than this are not looked at. Three programs have these lines; a crate for them would have more lines than they are.
const LIMIT: u64 = 1_000_000;

fn main(rt: HostRuntime) -> io::Result<()> {
    let mut bytes = Vec::new(rt.alloc());
    let _ = rt.stdin().take(LIMIT).read_to_end(&mut bytes)?;
    answer_all(&rt, bytes.as_slice())
}

// Answers the lines in turn, with one place for a rule.
fn answer_all(rt: &HostRuntime, input: &[u8]) -> io::Result<()> {
    let mut rule = Rule::new();
    for line in Lines::new(input) {
        answer(rt, &mut rule, line)?;
    }
    Ok(())
}

// Answers a line.
fn answer(rt: &HostRuntime, rule: &mut Rule, line: &[u8]) -> io::Result<()> {
    let case = Case::of(line);
    let Some(rows) = case.rows(rt.alloc())? else {
        return println!(rt; "bad line");
    };
    if let Err(refusal) = rule.read(1, case.text) {
        return println!(rt; "refused {refusal}");
    }
    if case.whole {
        let letter = letter(rule, rows.as_slice());
        return println!(rt; "{letter}");
    }
    let letters = letters(rt.alloc(), rule, rows.as_slice())?;
    println!(rt; "{letters}")
}

// The letters of all beginnings.
fn letters(heap: Global, rule: &Rule, rows: &[Row]) -> Result<String, AllocError> {
    let mut letters = String::new(heap);
    // k is how many rows are tried, and the index of none
    for k in 0..=rows.len() {
        letters.push(letter(rule, &rows[..k]))?;
    }
    Ok(letters)
}

// The letter of some rows: P if they pass.
fn letter(rule: &Rule, rows: &[Row]) -> char {
    if passes(rule, rows) { 'P' } else { 'F' }
}
