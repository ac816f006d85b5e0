// The cases that the lines of the input hold.
use engine::{Op, Row, Value, Values};
use fields::{decimal, find};
use std::alloc::{AllocError, Global};

// More rows than this are no case.
const LIMIT: usize = 400;

// A rule's text, whether only all rows together are tried, and the rows as they are written, a `;` before each.
#[derive(Clone, Copy)]
pub(crate) struct Case<'a> {
    pub text: &'a [u8],
    pub whole: bool,
    rows: &'a [u8],
}

impl<'a> Case<'a> {
    pub(crate) fn of(line: &'a [u8]) -> Case<'a> {
        let (whole, body) = match line.strip_prefix(b"=") {
            Some(body) => (true, body),
            None => (false, line),
        };
        let (text, rows) = body.split_at(find(body, b';'));
        Case { text, whole, rows }
    }

    // The rows of the case, if they are all rows, and not too many.
    pub(crate) fn rows(&self, heap: Global) -> Result<Option<Vec<Row>>, AllocError> {
        let mut rows = Vec::new(heap);
        for part in self.rows.split(|byte| *byte == b';').skip(1) {
            let Some(row) = row(part) else {
                return Ok(None);
            };
            if rows.len() == LIMIT {
                return Ok(None);
            }
            rows.push(row)?;
        }
        Ok(Some(rows))
    }
}

// A row: the number of its order and seven values, parted by single spaces.
fn row(text: &[u8]) -> Option<Row> {
    let mut fields = text.split(|byte| *byte == b' ');
    let row = Row {
        op: op(fields.next()?)?,
        arg: value(fields.next()?)?,
        values: Values {
            c1: value(fields.next()?)?,
            c2: value(fields.next()?)?,
            c3: value(fields.next()?)?,
            c4: value(fields.next()?)?,
            c5: value(fields.next()?)?,
            c6: value(fields.next()?)?,
        },
    };
    match fields.next() {
        Some(_) => None,
        None => Some(row),
    }
}

fn op(field: &[u8]) -> Option<Op> {
    match field {
        b"0" => Some(Op::First),
        b"1" => Some(Op::Open),
        b"2" => Some(Op::Turn),
        b"3" => Some(Op::Skip),
        _ => None,
    }
}

// A value: `-` where it is missing.
fn value(field: &[u8]) -> Option<Value> {
    if field == b"-".as_slice() {
        return Some(None);
    }
    engine::value(decimal(field)?).map(Some)
}
