// The ledger of a pile of watches, and what holds of every pile. `specs/` has what this crate is for.
#![tactic(auto)]

ghost use Rattle.ledger.specs.Theorems.{LedgerSays, Nests, EveryPile};

// What holds of every ledger and every pile.
pub fn ledger_laws_hold()
    ensures says { LedgerSays }
    ensures nests { Nests }
    ensures piles { EveryPile }
{}
