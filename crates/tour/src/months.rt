// A short table of rows, held against a rule.
use engine::{Cell, Op, Row, Value, Values};
use matching::passes;
use rule::Rule;
use std::io;

const RULE: &str = "[(c3 = 1 or c3 = 3 or c3 = 5 or c3 = 7 or c3 = 9 or c3 = 11) => c5 = 30]";

const WHEN: &str = "[c3 = 1 or c3 = 3 or c3 = 5 or c3 = 7 or c3 = 9 or c3 = 11]";

const THEN: &str = "[c5 = 30]";

// The first days of five months, as somebody else worked them out. Month 3 has 29 days here, and should have 30.
fn rows() -> [Row; 5] {
    [
        first_day(Op::First, None, 1, 1, 30),
        first_day(Op::Skip, Some(30), 31, 2, 29),
        first_day(Op::Skip, Some(29), 60, 3, 29),
        first_day(Op::Skip, Some(29), 89, 4, 29),
        first_day(Op::Skip, Some(29), 118, 5, 30),
    ]
}

// The first day of a month of year 1, with the month's length.
fn first_day(op: Op, arg: Value, day: i32, month: i32, days: i32) -> Row {
    Row {
        op,
        arg,
        values: Values {
            c1: Some(day),
            c2: Some(1),
            c3: Some(month),
            c4: Some(1),
            c5: Some(days),
            c6: None,
        },
    }
}

fn word(passed: bool) -> &'static str {
    if passed { "passes" } else { "fails" }
}

// Whether the rows pass the rule of a text; false if the text is none.
fn pass(text: &str, rows: &[Row]) -> bool {
    let mut rule = Rule::new();
    match rule.read(1, text.as_bytes()) {
        Ok(()) => passes(&rule, rows),
        Err(_) => false,
    }
}

// The rows up to one that fails: why it does.
fn print_why(rt: &impl Print, rows: &[Row]) -> io::Result<()> {
    let when = word(pass(WHEN, rows));
    let then = word(pass(THEN, rows));
    println!(rt; "  why: before `=>`, {WHEN} {when};")?;
    println!(rt; "       after it, {THEN} {then}. A watch with this rule would halt here.")
}

fn print_row(rt: &impl Print, number: usize, row: &Row, passed: bool) -> io::Result<()> {
    let day = Cell(row.values.c1);
    let month = Cell(row.values.c3);
    let days = Cell(row.values.c5);
    let outcome = word(passed);
    println!(rt; "  row {number}: day {day}, month {month} of {days} days: {outcome}")
}

// Tries the rule on the rows up to each row in turn, until one fails.
pub(crate) fn print_trials(rt: &impl Print) -> io::Result<()> {
    println!(rt; "  text: {RULE}")?;
    let rows = rows();
    for (number, row) in rows.iter().enumerate() {
        let seen = &rows[..=number];
        let passed = pass(RULE, seen);
        print_row(rt, number, row, passed)?;
        if !passed {
            return print_why(rt, seen);
        }
    }
    Ok(())
}
