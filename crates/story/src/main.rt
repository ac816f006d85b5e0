// A column file under two watches, with a wrong month and mended.
#![tactic(auto)]

use columns::Columns;
use engine::{Call, Cell, Engine, Fault, Order, Reply};
use rule::Rule;
use std::io;
use watch::{Watch, run};

// Five columns of five rows. Columns 2 and 4 are all ones here, so they share their words. Month 3 has 29 days and should have 30,
// and so the days after it are one too low.
const WRONG: [i32; 27] = [
    5, 5, 7, 12, 17, 12, 22, 1, 31, 60, 89, 118, 1, 1, 1, 1, 1, 1, 2, 3, 4, 5, 30, 29, 29, 29, 30,
];

const MENDED: [i32; 27] = [
    5, 5, 7, 12, 17, 12, 22, 1, 31, 60, 90, 119, 1, 1, 1, 1, 1, 1, 2, 3, 4, 5, 30, 29, 30, 29, 30,
];

const STORY: &str = "\
A table with the first days of five months comes as a file: a list of words with one column
after another. An engine shows it row by row, and two watches stand over the engine, one above
the other. The inner one wants 30 days in odd months, the outer one wants the newest day to be
later than all days seen after row 0. The pile is turned four times. It halts at the first row
at which a rule fails, names the watch and the row, and stays so; it never shows that row. In
the file as it came month 3 has 29 days and should have 30.";

const INNER: &str = "[(c3 = 1 or c3 = 3 or c3 = 5 or c3 = 7 or c3 = 9 or c3 = 11) => c5 = 30]";

const OUTER: &str = "[op = 0] | [true].[c1 < c1']*.[op = 0]";

// What the story shows of a page: its day, its month and the days in that month, or the fault.
const CALLS: [Call; 3] = [Call::Show(1), Call::Show(3), Call::Show(5)];

fn value_in(reply: Reply) -> Cell {
    Cell(reply.value().flatten())
}

fn print_halt(rt: &impl Print, fault: Fault) -> io::Result<()> {
    let watch = fault.watch;
    let row = fault.row;
    let rise = fault.rise;
    println!(rt; "  halted by watch {watch} at row {row}, watches above it: {rise}")
}

// Prints where the pile stands.
fn print_page<P: Engine>(rt: &impl Print, pile: &mut P, row: usize) -> io::Result<()> {
    let mut said = [Reply::ToGive(Ok(())); 3];
    run(pile, &CALLS, &mut said);
    if let Some(fault) = said[0].fault() {
        return print_halt(rt, fault);
    }
    let day = value_in(said[0]);
    let month = value_in(said[1]);
    let days = value_in(said[2]);
    println!(rt; "  row {row}: day {day}, month {month} of {days} days")
}

// Turns the pile four times, and prints each page.
fn print_turns<P: Engine>(rt: &impl Print, pile: &mut P) -> io::Result<()> {
    print_page(rt, pile, 0)?;
    for row in 1..5 {
        let mut said = [Reply::ToGive(Ok(())); 1];
        run(pile, &[Call::Give(Order::Turn)], &mut said);
        print_page(rt, pile, row)?;
    }
    Ok(())
}

// The rule of a text under a watch number. A text that is no rule leaves `[true]` there.
fn rule_of(watch: i32, text: &str) -> Rule {
    let mut rule = Rule::new();
    let _ = rule.read(watch, text.as_bytes());
    rule
}

fn print_story(rt: &impl Print, words: &[i32]) -> io::Result<()> {
    match Columns::new(words) {
        Ok(file) => {
            let inner = Watch::new(rule_of(11, INNER), file);
            let mut pile = Watch::new(rule_of(12, OUTER), inner);
            print_turns(rt, &mut pile)
        }
        Err(refusal) => {
            let number = refusal.number();
            let place = refusal.place();
            println!(rt; "  refused: number {number}, at place {place}")
        }
    }
}

// The file as it came, and the file mended.
fn main(rt: HostRuntime) -> io::Result<()> {
    println!(rt; "{STORY}")?;
    println!(rt; "  watch 11: {INNER}")?;
    println!(rt; "  watch 12: {OUTER}")?;
    println!(rt; "The file as it came:")?;
    print_story(&rt, &WRONG)?;
    println!(rt; "The file mended:")?;
    print_story(&rt, &MENDED)
}
