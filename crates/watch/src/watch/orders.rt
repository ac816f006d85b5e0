// A watch is again an engine.
ghost use Rattle.std.specs.Prelude.{[], ◌∷◌};
ghost use Rattle.ledger.specs.Lawfuls.{ledger_lawful};
ghost use Rattle.watch.specs.Watching.{book_of, standing, watcher, Obeyed};

use super::Watch;
use super::making::raised;
use engine::{Answer, Engine, Order, OrderError, Refusal, ShowError, Shown};

impl<E: Engine> Engine for Watch<E> {
    ghost book = { λ w. book_of E.Engine.book w };

    ghost lawful = { λ w. ledger_lawful (watcher w.rule ∷ []) (E.Engine.book w.below) (E.Engine.lawful w.below) (standing w.fault w.rows) };

    ghost effect = { Obeyed E.Engine.book };

    // In this sequence: the watch has halted, or is full; the engine below refuses the order, halts by it, or takes it. A full watch
    // only asks the engine below whether it has halted. It never has, but no invariant can say so.
    fn give(&mut self, order: Order) -> Answer {
        if let Some(fault) = self.fault {
            return Err(OrderError::Halted(fault));
        }
        if self.rows.is_full() {
            return match self.below.would(order) {
                Err(OrderError::Halted(fault)) => self.halt(raised(fault)),
                Ok(()) | Err(OrderError::Refused(_)) => Err(OrderError::Refused(Refusal::Full)),
            };
        }
        match self.ask(order) {
            Err(OrderError::Halted(fault)) => self.halt(raised(fault)),
            Err(OrderError::Refused(why)) => Err(OrderError::Refused(why)),
            Ok(()) => self.enter(Some(order)),
        }
    }

    fn show(&self, column: i32) -> Shown {
        if let Some(fault) = self.fault {
            return Err(ShowError::Halted(fault));
        }
        match self.below.show(column) {
            Err(ShowError::Halted(fault)) => Err(ShowError::Halted(raised(fault))),
            shown => shown,
        }
    }

    fn would(&self, order: Order) -> Answer {
        if let Some(fault) = self.fault {
            return Err(OrderError::Halted(fault));
        }
        match self.below.would(order) {
            Err(OrderError::Halted(fault)) => Err(OrderError::Halted(raised(fault))),
            _ if self.rows.is_full() => Err(OrderError::Refused(Refusal::Full)),
            said => said,
        }
    }
}
