// Prints every day that the reckoned engine comes to by turns, and then the number of the answer to the turn that is not taken.
// A line has the six columns of a day, parted by single spaces.
#![tactic(auto)]

mod shown;

use calendar::Reckoned;
use engine::{Answer, Engine, Reply, read};
use shown::Page;
use std::io;

// More days than this are not looked at, so that the loop is bounded.
const LIMIT: u16 = 20_000;

fn main(rt: HostRuntime) -> io::Result<()> {
    let mut engine = Reckoned::new();
    for _ in 0..LIMIT {
        print_page(&rt, &engine)?;
        match engine.turn() {
            Ok(()) => {}
            answer => return print_number(&rt, answer),
        }
    }
    Ok(())
}

// The page where the engine stands, as a line. The reckoned engine never halts.
fn print_page(rt: &impl Print, engine: &Reckoned) -> io::Result<()> {
    match read(engine) {
        Ok(values) => {
            let page = Page { values };
            println!(rt; "{page}")
        }
        Err(_) => println!(rt; "halted"),
    }
}

fn print_number(rt: &impl Print, answer: Answer) -> io::Result<()> {
    let number = Reply::ToGive(answer).number();
    println!(rt; "{number}")
}
