// The lines that are printed of a pile: the header, one for its making, then one for each order line.
ghost use Rattle.std.specs.Prelude.{◌≡◌, ◌+◌, ◌<◌, ◌≤◌, length};
ghost use Rattle.engine.specs.Calls.{replies as replies_of, book_after_all};
ghost use Rattle.script.specs.Orders.{order_of};
ghost use Rattle.script.specs.Output.{Appended};
ghost use Rattle.transcript.specs.Log.{page_calls, line_calls, rows_after, replies_text, log_text};

use engine::{Call, Engine, Reply};
use fields::Lines;
use script::{Output, order};
use watch::run;

// The calls that show a page.
fn page() -> [Call; 6]
    ensures { result ≡ page_calls }
{
    [1, 2, 3, 4, 5, 6].map(|column| Call::Show(column))
}

// Sends calls to a pile.
fn send<P: Engine, const N: usize>(pile: &mut P, calls: &[Call; N]) -> [Reply; N]
    ensures told { result ≡ replies_of (P.Engine.book pile.old) calls.now }
    ensures moved { P.Engine.book pile.new ≡ book_after_all (P.Engine.book pile.old) calls.now }
{
    // what a place holds before its reply
    let mut replies = [Reply::ToGive(Ok(())); N];
    run(pile, calls, &mut replies);
    replies
}

// Writes the line of an order line, whatever it holds, and answers the row number after it. Each row comes of a line of the
// input, so there are fewer than 60,000.
fn put_answer<P: Engine>(pile: &mut P, line: &[u8], row: u32, output: &mut Output<'_>) -> u32
    requires { row < 60000 }
    ensures wrote { Appended output.old (replies_text row (replies_of (P.Engine.book pile.old) (line_calls (order_of line.now)))) output.new }
    ensures row { result ≡ rows_after row (replies_of (P.Engine.book pile.old) (line_calls (order_of line.now))) }
    ensures bound { result ≤ row + 1 }
    ensures moved { P.Engine.book pile.new ≡ book_after_all (P.Engine.book pile.old) (line_calls (order_of line.now)) }
{
    let Some(order) = order(line) else {
        output.put_bytes(b"14\n");
        return row;
    };
    let [reply] = send(pile, &[Call::Give(order)]);
    // by the number, as the definition counts
    let row = row + u32::from(reply.number() == 0);
    output.put_line(row, reply, &send(pile, &page()));
    row
}

// Writes the header, the line of the making and those of the order lines.
pub(crate) fn put_log<P: Engine>(pile: &mut P, lines: Lines<'_>, output: &mut Output<'_>)
    requires { length lines ≤ 60000 }
    ensures { Appended output.old (log_text (P.Engine.book pile.old) lines.entry) output.new }
{
    output.put_bytes(b"answer row c1 c2 c3 c4 c5 c6\n");
    let shown = send(pile, &page());
    output.put_line(0, shown[0], &shown);
    let mut row = 0;
    for line in lines {
        row = put_answer(pile, line, row, output);
    }
}
