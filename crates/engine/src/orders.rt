// What an engine is asked.
ghost use Rattle.std.specs.Prelude.{◌≡◌, Some};
ghost use Rattle.engine.specs.Values.{op_of, arg_of};

use crate::{Op, Value, value};

// An order: open at an argument, turn by one, or skip forward by an argument.
#[derive(Clone, Copy, Debug, PartialEq, Eq)]
pub enum Order {
    Open(i32),
    Turn,
    Skip(i32),
}

impl Order {
    // The op of the row that the order adds.
    pub fn op(self) -> Op
        ensures { result ≡ op_of (Some self) }
    {
        match self {
            Order::Open(_) => Op::Open,
            Order::Turn => Op::Turn,
            Order::Skip(_) => Op::Skip,
        }
    }

    // The arg of the row that the order adds.
    pub fn arg(self) -> Value
        ensures { result ≡ arg_of (Some self) }
    {
        match self {
            Order::Open(argument) => value(argument),
            Order::Turn => None,
            Order::Skip(argument) => value(argument),
        }
    }
}

// An order that is given, or one of the two questions: what a column shows, and whether an order would be taken.
#[derive(Clone, Copy, Debug, PartialEq, Eq)]
pub enum Call {
    Give(Order),
    Show(i32),
    Would(Order),
}
