// The cases that the lines of the input hold.
use fields::decimal;

// A text to read, and the watch number to read it under.
#[derive(Clone, Copy)]
pub(crate) struct Case<'a> {
    pub watch: i32,
    pub text: &'a [u8],
}

impl<'a> Case<'a> {
    // The case of a line: a decimal number, a space and the text, which may be empty.
    pub(crate) fn of(line: &'a [u8]) -> Option<Case<'a>> {
        let mut parts = line.splitn(2, |byte| *byte == b' ');
        let (number, text) = (parts.next()?, parts.next()?);
        Some(Case {
            watch: decimal(number)?,
            text,
        })
    }
}
