// An engine that halts by itself.
ghost use Rattle.std.specs.Prelude.{◌≡◌, []};
ghost use Rattle.engine.specs.Books.{reading};
ghost use Rattle.stacks.specs.Halts.{halting_book, halting_lawful};

use engine::{Answer, Engine, Fault, Order, Shown, Values, value};

// It takes every order and counts them, shows the count in column 1, and halts with a fault when the count comes to a limit.
#[derive(Clone, Copy)]
pub(crate) struct Halting {
    count: u16,
    limit: u16,
    fault: Fault,
}

impl Halting {
    // An engine to which no order has been given; at limit 0 it is halted from the start.
    pub(crate) fn new(limit: u16, fault: Fault) -> Halting {
        Halting {
            count: 0,
            limit,
            fault,
        }
    }

    // The values of the page, or the fault.
    fn values(&self) -> Result<Values, Fault>
        ensures { result ≡ reading (halting_book self.now []) }
    {
        if self.limit <= self.count {
            return Err(self.fault);
        }
        Ok(Values {
            c1: value(i32::from(self.count)),
            ..Values::default()
        })
    }
}

impl Engine for Halting {
    ghost book = { halting_book };

    ghost lawful = { halting_lawful };

    fn give(&mut self, _order: Order) -> Answer {
        self.values()?;
        self.count += 1;
        self.values()?;
        Ok(())
    }

    fn show(&self, column: i32) -> Shown {
        self.values()?.show(column)
    }

    fn would(&self, _order: Order) -> Answer {
        self.values()?;
        Ok(())
    }
}
