// A watch over any engine.
use arrayvec::ArrayVec;
use engine::{Engine, Fault, Row};
use rule::Rule;

mod making;
mod orders;

// A watch: an engine under a rule, with the rows seen so far, the oldest first, and the fault by which it has halted, if it has. It
// halts for good at the first row at which the rows do not pass the rule, and is itself an engine, so another watch can stand over it:
// watches over one another, with an engine at the bottom, are a pile.
#[derive(Drop)]
pub struct Watch<E: Engine> {
    below: E,
    rule: Rule,
    rows: ArrayVec<Row, 400>,
    fault: Option<Fault>,
}
