// Whether a list of words is a column file: the header is tried first, then every offset, then every value.
ghost use Rattle.std.specs.Prelude.{◌≡◌, MatchBool, MatchOption, MatchResult};
ghost use Rattle.columns.specs.File.{row_count, HeaderOk, OffsetsOk, ColumnsOk, Each, Sound, Refused};
ghost use Rattle.columns.specs.Headers.{offset_words, OffsetFits, RowOk, BadRow};

use crate::refusals::FileRefusal;
use crate::words::{allowed, natural};

// A list of words whose header is whole and in range, taken apart: the offsets, and how many rows each column has.
#[derive(Clone, Copy)]
struct File<'a> {
    words: &'a [i32],
    offsets: &'a [i32],
    rows: usize,
    ghost ok: { HeaderOk words.now },
    ghost read: { offsets.now ≡ offset_words words.now },
    ghost counted: { rows ≡ row_count words.now },
}

impl<'a> File<'a> {
    // Takes the header apart, if it is in order.
    fn read(words: &'a [i32]) -> Option<File<'a>>
        ensures { MatchOption result (HeaderOk words.now → ⊥) (λ f. f.words.now ≡ words.now) }
    {
        let [columns, rows, rest @ ..] = words else {
            return None;
        };
        let columns = natural(*columns);
        let rows = natural(*rows);
        if columns < 1 || columns > 6 || rows < 1 || rows > 20_000 {
            return None;
        }
        let offsets = rest.get(0..columns)?;
        Some(File {
            words,
            offsets,
            rows,
        })
    }

    // Whether a column with this offset begins after the header and ends inside the list.
    fn fits(&self, offset: i32) -> bool
        ensures { MatchBool result (OffsetFits self.now.words.now offset) (OffsetFits self.now.words.now offset → ⊥) }
    {
        let first = natural(offset);
        2 + self.offsets.len() <= first && first + self.rows <= self.words.len()
    }

    // Refuses the lowest column whose offset is bad.
    fn check_offsets(&self) -> Result<(), FileRefusal>
        ensures { MatchResult result (λ _. OffsetsOk self.now.words.now) (λ e. Refused self.now.words.now e) }
    {
        for (column, offset) in self.offsets.iter().enumerate() {
            if !self.fits(*offset) {
                return Err(FileRefusal::Offset(2 + column));
            }
        }
        Ok(())
    }

    // Refuses the lowest bad value in the column that has this offset.
    fn check_column(&self, offset: i32) -> Result<(), FileRefusal>
        requires { OffsetFits self.now.words.now offset }
        ensures { MatchResult result (λ _. Each (RowOk self.now.words.now offset) (row_count self.now.words.now)) (λ e. BadRow self.now.words.now offset e) }
    {
        let first = natural(offset);
        let column = &self.words[first..first + self.rows];
        for (row, word) in column.iter().enumerate() {
            if !allowed(*word) {
                return Err(FileRefusal::Value(first + row));
            }
        }
        Ok(())
    }

    // Refuses the lowest bad value of the lowest column that has one.
    fn check_values(&self) -> Result<(), FileRefusal>
        requires { OffsetsOk self.now.words.now }
        ensures { MatchResult result (λ _. ColumnsOk self.now.words.now) (λ e. Refused self.now.words.now e) }
    {
        for offset in self.offsets {
            self.check_column(*offset)?;
        }
        Ok(())
    }
}

// Refuses a list that is no column file.
pub fn verify(words: &[i32]) -> Result<(), FileRefusal>
    ensures { MatchResult result (λ _. Sound words.now) (λ e. Refused words.now e) }
{
    let file = File::read(words).ok_or(FileRefusal::Header)?;
    file.check_offsets()?;
    file.check_values()
}
