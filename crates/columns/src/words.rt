// Words of a column file: as counts and places, and as values.
ghost use Rattle.std.specs.Prelude.{◌≡◌, ◌-◌};
ghost use Rattle.columns.specs.File.{natural as natural_of, allowed as allowed_of};
ghost use Rattle.columns.specs.Rows.{entry as entry_of, last_row};

use engine::{Value, value};

// The word that says that a value is missing.
const MISSING: i32 = i32::MIN;

// A word as a count or a place. A negative one is taken as 0, which is out of range for every count and offset;
// an option would be tested twice.
pub fn natural(word: i32) -> usize
    ensures { result ≡ natural_of word }
{
    usize::try_from(word).unwrap_or(0)
}

// Whether a word may stand in a column.
pub fn allowed(word: i32) -> bool
    ensures { result ≡ allowed_of word }
{
    word == MISSING || value(word).is_some()
}

// The last row that an engine over these words goes to; 0 where there is no count, so that no order is taken there. The cast fits:
// `try_from` would need a branch that never runs.
pub fn last_row(words: &[i32]) -> u16
    ensures { result ≡ last_row words.now }
{
    match words.get(1) {
        Some(rows) => natural(*rows).min(20_000) as u16,
        None => 0,
    }
}

// What stands in a column, counted from 0, at a row that is counted from 1.
pub fn entry(words: &[i32], column: usize, row: u16) -> Value
    ensures { result ≡ entry_of words.now column (row - 1) }
{
    if words.len() < 2 || column >= words.len() - 2 || column >= natural(words[0]) {
        return None;
    }
    let place = natural(words[2 + column]) + usize::from(row.saturating_sub(1));
    value(*words.get(place)?)
}
