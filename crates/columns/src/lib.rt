// The column engine: it stands at a row of a list of signed words that the caller lends, and shows that row's values.
#![tactic(auto)]

ghost use Rattle.std.specs.Prelude.{◌≡◌, MatchResult};
ghost use Rattle.columns.specs.File.{Refused, OneVerdict};
ghost use Rattle.columns.specs.Rows.{lead as lead_of, columns_book, columns_lawful, file_book, Made};

use engine::{Answer, Engine, Order, Refusal, ShowError, Shown, onward, opening};
use words::{entry, last_row};

mod checking;
mod refusals;
mod words;

pub use refusals::FileRefusal;

// An engine over a column file, at a row counted from 1. No invariant says that the words are a column file: its book is defined for
// every list, so each read tests its place and its value in any case.
#[derive(Clone, Copy, Debug)]
pub struct Columns<'a> {
    words: &'a [i32],
    row: u16,
}

impl<'a> Columns<'a> {
    // An engine at row 1 of a column file; of any other list none is made.
    pub fn new(words: &'a [i32]) -> Result<Columns<'a>, FileRefusal>
        ensures made { MatchResult result (λ e. Made words.now e) (λ e. Refused words.now e) }
        ensures pinned { OneVerdict words.now }
    {
        checking::verify(words)?;
        Ok(Columns::at_first_row(words))
    }

    // An engine at row 1 of any list.
    fn at_first_row(words: &'a [i32]) -> Columns<'a>
        ensures book { columns_book result ≡ file_book words.now }
        ensures same_words { result.words.now ≡ words.now }
    {
        Columns { words, row: 1 }
    }

    // Where an order leads, or why it is refused. One function for this and the reckoned engine would take where an open leads and the
    // last place as arguments, and be as long.
    fn lead(&self, order: Order) -> Result<u16, Refusal>
        ensures { result ≡ lead_of self.now.words.now self.now.row order }
    {
        let last = last_row(self.words);
        match order {
            Order::Open(argument) => opening(last, argument),
            Order::Turn => onward(last, self.row, 1),
            Order::Skip(argument) => onward(last, self.row, argument),
        }
    }
}

impl<'a> Engine for Columns<'a> {
    ghost book = { columns_book };

    ghost lawful = { columns_lawful };

    // no order touches the words
    ghost effect = { λ old new _ _. new.words.now ≡ old.words.now };

    fn give(&mut self, order: Order) -> Answer {
        self.row = self.lead(order)?;
        Ok(())
    }

    fn show(&self, column: i32) -> Shown {
        match usize::try_from(column) {
            Ok(number @ 1..=6) => Ok(entry(self.words, number - 1, self.row)),
            _ => Err(ShowError::NoColumn),
        }
    }

    fn would(&self, order: Order) -> Answer {
        self.lead(order)?;
        Ok(())
    }
}
