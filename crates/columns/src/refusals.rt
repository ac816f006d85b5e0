// Why a list of words is no column file.
ghost use Rattle.std.specs.Prelude.{◌≡◌, Some};
ghost use Rattle.columns.specs.Numbers.{notice, refusal_text};

use std::fmt;

// The list ends inside the header or a count is out of range; the offset at a place is bad; the value at a place is bad.
#[derive(Clone, Copy, Debug, PartialEq, Eq)]
pub enum FileRefusal {
    Header,
    Offset(usize),
    Value(usize),
}

impl FileRefusal {
    // The number that an editor sees.
    pub fn number(self) -> u8
        ensures { result ≡ (notice self).number }
    {
        match self {
            FileRefusal::Header => 16,
            FileRefusal::Offset(_) => 17,
            FileRefusal::Value(_) => 18,
        }
    }

    // How many words stand before the one at fault.
    pub fn place(self) -> usize
        ensures { result ≡ (notice self).place }
    {
        match self {
            FileRefusal::Header => 0,
            FileRefusal::Offset(place) => place,
            FileRefusal::Value(place) => place,
        }
    }
}

// As editors know it: its number and its place.
// Like that of a rule's refusal: a trait for two would be longer.
impl fmt::Display for FileRefusal {
    ghost output = { λ e. Some (refusal_text e) };

    fn fmt<W: fmt::Write>(&self, f: &mut fmt::Formatter<W>) -> fmt::Result {
        write!(f, "{} at {}", self.number(), self.place())
    }
}
