// What a page shows of its values, and how a value is printed.
ghost use Rattle.std.specs.Prelude.{◌≡◌, Some};
ghost use Rattle.engine.specs.Books.{column as column_of};
ghost use Rattle.engine.specs.Texts.{value_text};

use crate::{ShowError, Shown, Value, Values};
use std::fmt;

impl Values {
    // The value in a column, counted from 1.
    pub fn show(&self, column: i32) -> Shown
        ensures { result ≡ column_of self.now column }
    {
        match column {
            1 => Ok(self.c1),
            2 => Ok(self.c2),
            3 => Ok(self.c3),
            4 => Ok(self.c4),
            5 => Ok(self.c5),
            6 => Ok(self.c6),
            _ => Err(ShowError::NoColumn),
        }
    }
}

// A value that is printed in decimal, or as `-` where it is missing.
#[derive(Clone, Copy, Debug, PartialEq, Eq)]
pub struct Cell(pub Value);

impl fmt::Display for Cell {
    ghost output = { λ c. Some (value_text c.0) };

    fn fmt<W: fmt::Write>(&self, f: &mut fmt::Formatter<W>) -> fmt::Result {
        match self.0 {
            Some(number) => write!(f, "{number}"),
            None => f.write_str("-"),
        }
    }
}
