// How a page is shown.
use engine::{Cell, Values};
use std::fmt;

// The six columns of a page, parted by single spaces.
#[derive(Clone, Copy)]
pub(crate) struct Page {
    pub values: Values,
}

impl fmt::Display for Page {
    fn fmt<W: fmt::Write>(&self, f: &mut fmt::Formatter<W>) -> fmt::Result {
        let v = &self.values;
        write!(
            f,
            "{} {} {} {} {} {}",
            Cell(v.c1),
            Cell(v.c2),
            Cell(v.c3),
            Cell(v.c4),
            Cell(v.c5),
            Cell(v.c6)
        )
    }
}
