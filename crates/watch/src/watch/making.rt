// Making a watch, and coming to a page.
ghost use Rattle.std.specs.Prelude.{◌≡◌, ◌<◌, None, Some, Err};
ghost use Rattle.engine.specs.declared.answers.OrderError.TheVariants.{Halted};
ghost use Rattle.engine.specs.Books.{after, answer};
ghost use Rattle.engine.specs.Values.{row_of};
ghost use Rattle.ledger.specs.Ledger.{halting, risen};
ghost use Rattle.watch.specs.Tables.{count_of};
ghost use Rattle.watch.specs.Watching.{Entered, Made};

use super::Watch;
use arrayvec::ArrayVec;
use engine::{Answer, Engine, Fault, Op, Order, OrderError, Row, read};
use matching::passes;
use rule::Rule;

// The fault, come up through one watch more.
pub(crate) fn raised(fault: Fault) -> Fault
    ensures { result ≡ risen fault }
{
    Fault {
        rise: fault.rise.saturating_add(1),
        ..fault
    }
}

impl<E: Engine> Watch<E> {
    // Sets a watch that carries a rule over an engine.
    pub fn new(rule: Rule, engine: E) -> Watch<E>
        ensures { Made E.Engine.book rule engine result }
    {
        let mut watch = Watch {
            below: engine,
            rule,
            rows: ArrayVec::new(),
            fault: None,
        };
        let _ = watch.enter(None);
        watch
    }

    // Halts for good, and answers so.
    pub(crate) fn halt(&mut self, fault: Fault) -> Answer
        ensures told { result ≡ Err (Halted fault) }
        ensures fault { self.new.fault ≡ Some fault }
        ensures rows { self.new.rows ≡ self.old.rows }
        ensures rule { self.new.rule ≡ self.old.rule }
        ensures below { self.new.below ≡ self.old.below }
    {
        self.fault = Some(fault);
        Err(OrderError::Halted(fault))
    }

    // Gives an order to the engine below, before any row is kept, and leaves all else of the watch as it is.
    pub(crate) fn ask(&mut self, order: Order) -> Answer
        ensures told { result ≡ answer (E.Engine.book self.old.below) order }
        ensures moved { E.Engine.book self.new.below ≡ after (E.Engine.book self.old.below) order }
        ensures rows { self.new.rows ≡ self.old.rows }
        ensures rule { self.new.rule ≡ self.old.rule }
        ensures fault { self.new.fault ≡ self.old.fault }
    {
        self.below.give(order)
    }

    // Comes to the page below, the first one or the one that an order led to: keeps its row and tries the rule, or halts with the
    // engine below.
    pub(crate) fn enter(&mut self, order: Option<Order>) -> Answer
        requires live { self.old.fault ≡ None }
        requires room { count_of self.old.rows < 400 }
        ensures told { result ≡ halting self.new.fault }
        ensures entered { Entered E.Engine.book (row_of order) self.old self.new }
    {
        match read(&self.below) {
            Err(fault) => self.halt(raised(fault)),
            Ok(values) => {
                // there are at most 400, so it fits; `try_from` would need a branch that never runs
                let row = self.rows.len() as u32;
                let op = order.map_or(Op::First, Order::op);
                let arg = order.and_then(Order::arg);
                let mut kept = Row::default();
                kept.write(op, arg, values);
                self.rows.push(kept);
                if passes(&self.rule, self.rows.as_slice()) {
                    return Ok(());
                }
                let watch = self.rule.watch();
                self.halt(Fault {
                    watch,
                    row,
                    rise: 0,
                })
            }
        }
    }
}
