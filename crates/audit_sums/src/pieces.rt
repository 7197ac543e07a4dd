//! The pieces of a book.

ghost use Rattle.std.specs.Prelude.{◌≡◌, ◌++◌, ◌∷◌, [], option_map, option_to_list, Some, OnOk};
ghost use Rattle.mc_records.specs.Views.{entry};
ghost use Rattle.ledger_model.specs.Histories.{History};
ghost use Rattle.ledger_model.specs.Houses.{terms_in};
ghost use Rattle.ledger_model.specs.Pieces.{accepted_piece};
ghost use Rattle.audit_model.specs.Parts.{part_of};
ghost use Rattle.audit_sums.specs.Learned.{ShowsPieces};

use crate::readings::{acceptance, handed, run};
use crate::rows::{Acceptance, Run};
use audit_model::Part;
use mc_base::NoMemory;
use mc_records::Record;
use scrip_form::Terms;
use std::alloc::Global;

/// The pieces of a book, in the order of its entries.
#[derive(Drop)]
pub(crate) struct Pieces {
    pub(crate) accepted: Vec<Acceptance>,
    pub(crate) own_out: Vec<Part>,
    pub(crate) minted: Vec<Run>,
}

impl Pieces {
    /// No pieces. It takes no memory.
    pub(crate) fn none(alloc: Global) -> Pieces
        ensures accepted { result.accepted.items ≡ [] }
        ensures own_out { result.own_out.items ≡ [] }
        ensures minted { result.minted.items ≡ [] }
    {
        Pieces {
            accepted: Vec::new(alloc),
            own_out: Vec::new(alloc),
            minted: Vec::new(alloc),
        }
    }

    /// Learns the pieces of the next entry of a house with these terms of its own, by the piece that it accepts. After an
    /// `Err` nothing is said of what is kept.
    pub(crate) fn learn(
        &mut self,
        terms: &Terms,
        r: &Record<'_>,
        paid: &Option<Part>,
    ) -> Result<(), NoMemory>
        requires { paid.now ≡ option_map part_of (accepted_piece (entry r.now)) }
        ensures { (h : History) → terms_in h 0 ≡ Some terms.now → ShowsPieces self.old h
            → OnOk result (ShowsPieces self.new (h ++ entry r.now ∷ [])) }
    {
        put(&mut self.accepted, acceptance(r, paid))?;
        put(&mut self.own_out, handed(terms, r, paid))?;
        put(&mut self.minted, run(r))
    }
}

/// Puts one more element behind the others, where there is one.
pub(crate) fn put<X: Drop>(list: &mut Vec<X>, element: Option<X>) -> Result<(), NoMemory>
    ensures { OnOk result (list.new.items ≡ list.old.items ++ option_to_list element) }
{
    match element {
        Some(element) => list.push(element)?,
        None => (),
    }
    Ok(())
}
