// How counts, refusals and places are shown.
use grammar::Refusal;
use std::fmt;

// So many things, as `1 claim` or `2 claims`.
#[derive(Clone, Copy)]
pub(crate) struct Count {
    pub number: u16,
    pub thing: &'static str,
}

impl fmt::Display for Count {
    fn fmt<W: fmt::Write>(&self, f: &mut fmt::Formatter<W>) -> fmt::Result {
        let Count { number, thing } = self;
        if *number == 1 {
            return write!(f, "1 {thing}");
        }
        write!(f, "{number} {thing}s")
    }
}

// Why a text is refused, in plain words.
#[derive(Clone, Copy)]
pub(crate) struct Cause<'a> {
    pub refusal: &'a Refusal,
}

impl fmt::Display for Cause<'_> {
    fn fmt<W: fmt::Write>(&self, f: &mut fmt::Formatter<W>) -> fmt::Result {
        f.write_str(match self.refusal {
            Refusal::WatchNumber => "the watch number is not from 1 to 65,535",
            Refusal::TextTooLong => "the text is over 4,096 bytes",
            Refusal::NotAToken(_) => "no token, or a number over 1,000,000,000",
            Refusal::TooManyTokens(_) => "the 501st token",
            Refusal::TooDeep(_) => "more than 16 round brackets open",
            Refusal::TooManyClaims(_) => "the 61st `[`",
            Refusal::Unexpected(_) => "no rule goes on like this",
        })
    }
}

// A caret that stands under a place of a text, with so many bytes before it.
#[derive(Clone, Copy)]
pub(crate) struct Caret {
    pub place: usize,
}

impl fmt::Display for Caret {
    fn fmt<W: fmt::Write>(&self, f: &mut fmt::Formatter<W>) -> fmt::Result {
        f.write_repeated(" ", self.place)?;
        f.write_str("^")
    }
}
