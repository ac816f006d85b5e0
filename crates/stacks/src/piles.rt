// Piles of up to three watches, in both stackings.
use crate::input::Setting;
use engine::{Call, Engine, Reply};
use grammar::Refusal;
use rule::Rule;
use std::alloc::{AllocError, Global};
use watch::{Watch, run_both};

// Calls, and the replies of two piles to them, which `run_both` takes apart.
#[derive(Drop)]
pub(crate) struct Run {
    calls: Vec<Call>,
    pub replies: Vec<Reply>,
    pub others: Vec<Reply>,
}

impl Run {
    // The calls, with room for their replies.
    pub(crate) fn new(heap: Global, calls: Vec<Call>) -> Result<Run, AllocError> {
        let blank = Reply::ToGive(Ok(()));
        let replies = vec![in heap; blank; calls.len()]?;
        let others = vec![in heap; blank; calls.len()]?;
        Ok(Run {
            calls,
            replies,
            others,
        })
    }

    // Sends the calls to two piles.
    fn send<P: Engine + Drop, Q: Engine + Drop>(&mut self, mut pile: P, mut twin: Q) {
        let calls = self.calls.as_slice();
        let replies = self.replies.as_mut_slice();
        let others = self.others.as_mut_slice();
        run_both(&mut pile, &mut twin, calls, replies, others);
    }
}

// The watch of a setting, over an engine.
fn watched<E: Engine + Drop>(setting: Setting<'_>, engine: E) -> Result<Watch<E>, Refusal> {
    let mut rule = Rule::new();
    rule.read(setting.number, setting.text.as_bytes())?;
    Ok(Watch::new(rule, engine))
}

// Each pile is made in a function of its own: in one function for all, the memory of the largest pile would be cleared for the smallest.
fn send_to_one<E: Engine + Drop>(
    engine: E,
    twin: E,
    only: Setting<'_>,
    run: &mut Run,
) -> Result<(), Refusal> {
    run.send(watched(only, engine)?, watched(only, twin)?);
    Ok(())
}

fn send_to_two<E: Engine + Drop>(
    engine: E,
    twin: E,
    inner: Setting<'_>,
    outer: Setting<'_>,
    run: &mut Run,
) -> Result<(), Refusal> {
    let pile = watched(outer, watched(inner, engine)?)?;
    let other = watched(inner, watched(outer, twin)?)?;
    run.send(pile, other);
    Ok(())
}

fn send_to_three<E: Engine + Drop>(
    engine: E,
    twin: E,
    inner: Setting<'_>,
    middle: Setting<'_>,
    outer: Setting<'_>,
    run: &mut Run,
) -> Result<(), Refusal> {
    let pile = watched(outer, watched(middle, watched(inner, engine)?)?)?;
    let other = watched(inner, watched(middle, watched(outer, twin)?)?)?;
    run.send(pile, other);
    Ok(())
}

// Sets the watches over the engine, the first one innermost, and over its twin, the last one innermost; then sends the calls to
// both piles. Of more than three watches only the first three are set. Piles of one, two and three watches are different types, so
// there is an arm for each: a function that sets watch after watch would call itself at ever new types.
pub(crate) fn send_to_piles<E: Engine + Drop>(
    engine: E,
    twin: E,
    settings: &[Setting<'_>],
    run: &mut Run,
) -> Result<(), Refusal> {
    match settings {
        [] => {
            run.send(engine, twin);
            Ok(())
        }
        [only] => send_to_one(engine, twin, *only, run),
        [inner, outer] => send_to_two(engine, twin, *inner, *outer, run),
        [inner, middle, outer, ..] => send_to_three(engine, twin, *inner, *middle, *outer, run),
    }
}
