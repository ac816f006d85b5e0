// How replies are shown.
use engine::{Cell, Fault, Reply};
use std::fmt;

// A reply as its number, and after it the value, as `0=5` or `0=-`, or the fault's watch, row and rise, as `20(7,3,0)`.
#[derive(Clone, Copy)]
struct Message {
    reply: Reply,
}

impl fmt::Display for Message {
    fn fmt<W: fmt::Write>(&self, f: &mut fmt::Formatter<W>) -> fmt::Result {
        let number = self.reply.number();
        match (self.reply.value(), self.reply.fault()) {
            (Some(value), _) => {
                let cell = Cell(value);
                write!(f, "{number}={cell}")
            }
            (None, Some(Fault { watch, row, rise })) => write!(f, "{number}({watch},{row},{rise})"),
            (None, None) => write!(f, "{number}"),
        }
    }
}

// Replies, a space before each.
#[derive(Clone, Copy)]
pub(crate) struct Replies<'a> {
    pub replies: &'a [Reply],
}

impl fmt::Display for Replies<'_> {
    fn fmt<W: fmt::Write>(&self, f: &mut fmt::Formatter<W>) -> fmt::Result {
        for reply in self.replies {
            let message = Message { reply: *reply };
            write!(f, " {message}")?;
        }
        Ok(())
    }
}
