// What every engine shows and every rule reads: values and rows, orders and answers, and the one interface of engines.
#![tactic(auto)]

ghost use Rattle.std.specs.Prelude.{◌≡◌};
ghost use Rattle.engine.specs.Values.{value_of, row_with};

mod answers;
mod interface;
mod orders;
mod places;
mod showing;

pub use answers::{Answer, Fault, OrderError, Refusal, Reply, ShowError, Shown};
pub use interface::{Engine, read};
pub use orders::{Call, Order};
pub use places::{onward, opening};
pub use showing::Cell;

// A number that is at most 1,000,000,000 in size, or none where the value is missing.
pub type Value = Option<i32>;

// The value that a number is: missing where the number is none that a value may have.
pub fn value(number: i32) -> Value
    ensures { result ≡ value_of number }
{
    if (-1_000_000_000..=1_000_000_000).contains(&number) {
        Some(number)
    } else {
        None
    }
}

// The six columns of a page or a row, by the names that they have in rules.
#[derive(Clone, Copy, Debug, Default, PartialEq, Eq)]
pub struct Values {
    pub c1: Value,
    pub c2: Value,
    pub c3: Value,
    pub c4: Value,
    pub c5: Value,
    pub c6: Value,
}

// How a row came about: as the first one, or by an order.
#[derive(Clone, Copy, Debug, Default, PartialEq, Eq)]
pub enum Op {
    #[default]
    First,
    Open,
    Turn,
    Skip,
}

// What a watch keeps of a day: the order that led there, its argument, and the page's values.
#[derive(Clone, Copy, Debug, Default, PartialEq, Eq)]
pub struct Row {
    pub op: Op,
    pub arg: Value,
    pub values: Values,
}

impl Row {
    // Puts other contents in the place of this row.
    pub fn write(&mut self, op: Op, arg: Value, values: Values)
        ensures { self.new ≡ row_with op arg values }
    {
        *self = Row { op, arg, values };
    }
}
