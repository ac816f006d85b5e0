// Reads cases from standard input: an engine, calls, and up to three watches. The watches are set over the engine as they come,
// and in reversed stacking over another such engine. Both piles are sent the calls, and the replies of each are printed in a line.
#![tactic(auto)]

mod halting;
mod input;
mod piles;
mod shown;

use calendar::Reckoned;
use columns::Columns;
use engine::{Engine, Reply};
use input::{Case, Ground, Setting};
use piles::{Run, send_to_piles};
use shown::Replies;
use std::io;
use std::io::Read;

// More bytes of input than this are not looked at. Three programs have these lines; a crate for them would have more lines than they are.
const LIMIT: u64 = 1_000_000;

fn main(rt: HostRuntime) -> io::Result<()> {
    let mut bytes = Vec::new(rt.alloc());
    let _ = rt.stdin().take(LIMIT).read_to_end(&mut bytes)?;
    match std::str::from_utf8(bytes.as_slice()) {
        Ok(lines) => answer_all(&rt, lines),
        Err(_) => println!(rt; "no text"),
    }
}

// Answers the lines in turn.
fn answer_all(rt: &HostRuntime, lines: &str) -> io::Result<()> {
    for line in lines.lines() {
        match Case::of(rt.alloc(), line)? {
            Some(case) => answer(rt, case)?,
            None => println!(rt; "bad line")?,
        }
    }
    Ok(())
}

// Makes the two engines of a case and sends the calls to the piles over them.
fn answer(rt: &HostRuntime, case: Case<'_>) -> io::Result<()> {
    let Case {
        ground,
        calls,
        settings,
    } = case;
    let run = Run::new(rt.alloc(), calls)?;
    let settings = settings.as_slice();
    match ground {
        Ground::Calendar => answer_over(rt, Reckoned::new(), Reckoned::new(), settings, run),
        Ground::Halting(engine) => answer_over(rt, engine, engine, settings, run),
        Ground::File(words) => answer_file(rt, words.as_slice(), settings, run),
    }
}

fn answer_file(
    rt: &HostRuntime,
    words: &[i32],
    settings: &[Setting<'_>],
    run: Run,
) -> io::Result<()> {
    match (Columns::new(words), Columns::new(words)) {
        (Ok(engine), Ok(twin)) => answer_over(rt, engine, twin, settings, run),
        (Err(refusal), _) | (_, Err(refusal)) => println!(rt; "file refused {refusal}"),
    }
}

// Prints the replies of the two piles over these engines, or why a rule is refused.
fn answer_over<E: Engine + Drop>(
    rt: &HostRuntime,
    engine: E,
    twin: E,
    settings: &[Setting<'_>],
    mut run: Run,
) -> io::Result<()> {
    match send_to_piles(engine, twin, settings, &mut run) {
        Ok(()) => print_replies(rt, run.replies.as_slice(), run.others.as_slice()),
        Err(refusal) => println!(rt; "rule refused {refusal}"),
    }
}

fn print_replies(rt: &HostRuntime, replies: &[Reply], others: &[Reply]) -> io::Result<()> {
    let pile = Replies { replies };
    let twin = Replies { replies: others };
    println!(rt; "pile{pile}")?;
    println!(rt; "twin{twin}")
}
