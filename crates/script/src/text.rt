// What is written of an answer.
ghost use Rattle.std.specs.Prelude.{map};
ghost use Rattle.engine.specs.Messages.{message};
ghost use Rattle.script.specs.Output.{Appended};
ghost use Rattle.script.specs.Text.{shown_text, spaced, columns_text, detail_text, line_text, rule_text};

use crate::Output;
use engine::{Reply, Value};

impl Output<'_> {
    // A space and a number.
    fn put_spaced(&mut self, n: u64)
        ensures { Appended self.old (spaced n) self.new }
    {
        self.put_bytes(b" ");
        self.put_number(n);
    }

    fn put_shown(&mut self, shown: Option<Value>)
        ensures { Appended self.old (shown_text shown) self.new }
    {
        match shown {
            Some(Some(z)) => self.put_signed(z),
            Some(None) | None => self.put_byte(b'-'),
        }
    }

    // The values that are shown, each after a space.
    fn put_columns(&mut self, shown: &[Reply])
        ensures { Appended self.old (columns_text (map message shown.now)) self.new }
    {
        for reply in shown {
            self.put_byte(b' ');
            self.put_shown(reply.value());
        }
    }

    // What follows the number of an answer: its fault, or else the row and the columns if the number is 0, by which the definition goes.
    fn put_detail(&mut self, row: u32, first: Reply, shown: &[Reply])
        ensures { Appended self.old (detail_text row (message first).number (message first).fault (map message shown.now)) self.new }
    {
        if let Some(fault) = first.fault() {
            self.put_spaced(u64::from(fault.watch));
            self.put_spaced(u64::from(fault.row));
            self.put_spaced(u64::from(fault.rise));
        } else if first.number() == 0 {
            self.put_spaced(u64::from(row));
            self.put_columns(shown);
        }
    }

    // The line of an answer to an order: its number, and its fault or the row with what the columns show.
    pub fn put_line(&mut self, row: u32, first: Reply, shown: &[Reply])
        ensures { Appended self.old (line_text row (message first) (map message shown.now)) self.new }
    {
        self.put_number(u64::from(first.number()));
        self.put_detail(row, first, shown);
        self.put_byte(b'\n');
    }

    // The line of a rule that is refused: its line, the number of the refusal and the place in the rule's text. There is no `From` from
    // `usize` to `u64`.
    pub fn put_rule_refusal(&mut self, line: usize, number: u8, place: usize)
        ensures { Appended self.old (rule_text line number place) self.new }
    {
        self.put_bytes(b"rule");
        self.put_spaced(line as u64);
        self.put_spaced(u64::from(number));
        self.put_spaced(place as u64);
        self.put_byte(b'\n');
    }
}
