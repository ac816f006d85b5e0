// The one interface that every engine stands behind.
ghost use Rattle.std.specs.Prelude.{◌≡◌, ⊤, []};
ghost use Rattle.engine.specs.Answers.{Answer as Answered};
ghost use Rattle.engine.specs.Books.{Book, Lawful, after, answer, foretold, shown, reading, shown_value};
ghost use Rattle.engine.specs.declared.orders.Order.{Order as Ordered};
ghost use Rattle.engine.specs.declared.orders.Order.TheVariants.{Open, Turn, Skip};

use crate::{Answer, Fault, Order, ShowError, Shown, Value, Values};

// An engine hands out the days of a calendar, a page at a time. It has a book and answers by it: an order is answered as the book
// says and then the book goes on from there, and a question is answered from the page where the engine stands. `lawful` says what
// every book keeps, and `effect` what an engine tells of an order beyond its book.
pub trait Engine {
    ghost book: { Self → Book };

    ghost lawful: { (x : Self) → Lawful (book x) };

    ghost effect: { Self → Self → Ordered → Answered → Type 0 } = { λ _ _ _ _. ⊤ };

    // Gives an order, whichever it is.
    fn give(&mut self, order: Order) -> Answer
        ensures told { result ≡ answer (book self.old) order }
        ensures moved { book self.new ≡ after (book self.old) order }
        ensures done { effect self.old self.new order result };

    fn show(&self, column: i32) -> Shown
        ensures { result ≡ shown (book self.now) column };

    fn would(&self, order: Order) -> Answer
        ensures { result ≡ foretold (book self.now) order };

    fn open(&mut self, argument: i32) -> Answer
        ensures told { result ≡ answer (book self.old) (Open argument) }
        ensures moved { book self.new ≡ after (book self.old) (Open argument) }
        ensures done { effect self.old self.new (Open argument) result }
    {
        self.give(Order::Open(argument))
    }

    fn turn(&mut self) -> Answer
        ensures told { result ≡ answer (book self.old) Turn }
        ensures moved { book self.new ≡ after (book self.old) Turn }
        ensures done { effect self.old self.new Turn result }
    {
        self.give(Order::Turn)
    }

    fn skip(&mut self, argument: i32) -> Answer
        ensures told { result ≡ answer (book self.old) (Skip argument) }
        ensures moved { book self.new ≡ after (book self.old) (Skip argument) }
        ensures done { effect self.old self.new (Skip argument) result }
    {
        self.give(Order::Skip(argument))
    }
}

// The value in a column, or the fault where the page is halted.
fn column<E: Engine>(engine: &E, column: i32) -> Result<Value, Fault>
    ensures { result ≡ shown_value (shown (E.Engine.book engine.now) column) }
{
    match engine.show(column) {
        Ok(value) => Ok(value),
        Err(ShowError::Halted(fault)) => Err(fault),
        Err(ShowError::NoColumn) => Ok(None),
    }
}

// Reads the page: its six values, or the fault where it is halted.
pub fn read<E: Engine>(engine: &E) -> Result<Values, Fault>
    ensures { result ≡ reading (E.Engine.book engine.now []) }
{
    Ok(Values {
        c1: column(engine, 1)?,
        c2: column(engine, 2)?,
        c3: column(engine, 3)?,
        c4: column(engine, 4)?,
        c5: column(engine, 5)?,
        c6: column(engine, 6)?,
    })
}
