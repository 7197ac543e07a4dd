//! Trades that ask nothing of notes.

ghost use Rattle.mc_records.specs.Entry.{Entry};
ghost use Rattle.ledger_model.specs.Histories.{History};

use broker_core::Desk;
use house_state::Trade;
use vendor_core::Shelf;

/// A trade that asks nothing of notes: where it is counted, the order of settlement's notes is all that is asked of them.
pub trait Unasking: Trade {
    // Each note passes its test.
    ghost asks_nothing: { (h : History) (e : Entry) → Self.passes h e };
}

impl Unasking for Shelf {
    ghost asks_nothing = { λ h e. tt };
}

impl Unasking for Desk {
    ghost asks_nothing = { λ h e. tt };
}
