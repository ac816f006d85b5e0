// The whole output for a whole input.
ghost use Rattle.std.specs.Prelude.{List, ℕ};
ghost use Rattle.script.specs.Output.{Appended};
ghost use Rattle.transcript.specs.Transcript.{Transcribed, Printed};

use crate::log::put_log;
use calendar::Reckoned;
use fields::Lines;
use rule::Rule;
use script::Output;
use watch::Watch;

// The most bytes that an input may have. Of a longer one it is only told that it is too long.
pub const INPUT_LIMIT: usize = 60_000;

// Writes what `daylog` prints for an input.
fn put_transcript(input: &[u8], output: &mut Output<'_>)
    ensures { (text : List ℕ) × Transcribed input.now text × Appended output.old text output.new }
{
    if input.len() > INPUT_LIMIT {
        output.put_bytes(b"15\n");
        return;
    }
    let mut lines = Lines::new(input);
    let first = lines.next().unwrap_or(b"");
    let second = lines.next().unwrap_or(b"");
    // one function for both rules would need a contract, on what it writes of a refusal, that is longer than these lines
    let mut inner = Rule::new();
    if let Err(refusal) = inner.read(1, first) {
        output.put_rule_refusal(1, refusal.number(), refusal.place());
        return;
    }
    let mut outer = Rule::new();
    if let Err(refusal) = outer.read(2, second) {
        output.put_rule_refusal(2, refusal.number(), refusal.place());
        return;
    }
    let mut pile = Watch::new(outer, Watch::new(inner, Reckoned::new()));
    put_log(&mut pile, lines, output);
}

// Writes what `daylog` prints for an input over the beginning of the memory, as far as that reaches, and answers how many bytes.
pub fn transcribe(input: &[u8], out: &mut [u8]) -> usize
    ensures { Printed input.now out.old out.new result }
{
    let mut output = Output {
        memory: out,
        place: 0,
    };
    put_transcript(input, &mut output);
    output.place
}
