// Runs of calls on piles. A pile is watches, one over another, with an engine at the bottom.
ghost use Rattle.std.specs.Prelude.{◌≡◌, min, length, take};
ghost use Rattle.engine.specs.Calls.{book_after, book_after_all, reply as reply_of};
ghost use Rattle.watch.specs.Running.{Answered, AsPile, AsPair};

use engine::{Call, Engine, Reply};

// Sends one call.
fn send<P: Engine>(pile: &mut P, call: Call) -> Reply
    ensures told { result ≡ reply_of (P.Engine.book pile.old) call }
    ensures moved { P.Engine.book pile.new ≡ book_after (P.Engine.book pile.old) call }
{
    match call {
        Call::Give(order) => Reply::ToGive(pile.give(order)),
        Call::Show(column) => Reply::ToShow(pile.show(column)),
        Call::Would(order) => Reply::ToWould(pile.would(order)),
    }
}

// Sends calls to a pile, as many as there is room for replies, and says how many.
pub fn run<P: Engine>(pile: &mut P, calls: &[Call], replies: &mut [Reply]) -> usize
    ensures count { result ≡ min (length calls.now) (length replies.old) }
    ensures answered { Answered (P.Engine.book pile.old) calls.now result replies.old replies.new }
    ensures moved { P.Engine.book pile.new ≡ book_after_all (P.Engine.book pile.old) (take result calls.now) }
    ensures piled { AsPile (P.Engine.book pile.old) (take result calls.now) (take result replies.new) }
{
    let count = calls.len().min(replies.len());
    // The caller lends the places for replies, since nothing here allocates; so they stand beside the calls.
    // The reply is reached by its index: of what `iter_mut` under `zip` has written nothing would be known.
    for (i, call) in calls[..count].iter().enumerate() {
        replies[i] = send(pile, *call);
    }
    count
}

// Sends the same calls to two piles, as many as there is room for the replies of both, and says how many. The places for replies are
// lent, as in `run`, since nothing here allocates.
pub fn run_both<P: Engine, Q: Engine>(
    pile: &mut P,
    other: &mut Q,
    calls: &[Call],
    replies: &mut [Reply],
    others: &mut [Reply],
) -> usize
    ensures count { result ≡ min (length calls.now) (min (length replies.old) (length others.old)) }
    ensures answered { Answered (P.Engine.book pile.old) calls.now result replies.old replies.new }
    ensures other_answered { Answered (Q.Engine.book other.old) calls.now result others.old others.new }
    ensures moved { P.Engine.book pile.new ≡ book_after_all (P.Engine.book pile.old) (take result calls.now) }
    ensures other_moved { Q.Engine.book other.new ≡ book_after_all (Q.Engine.book other.old) (take result calls.now) }
    ensures paired { AsPair (P.Engine.book pile.old) (Q.Engine.book other.old) (take result calls.now) (take result replies.new) (take result others.new) }
{
    let count = calls.len().min(replies.len()).min(others.len());
    let calls = &calls[..count];
    run(pile, calls, replies);
    run(other, calls, others);
    count
}
