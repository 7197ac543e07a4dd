//! The pieces of a wallet, found by their vendor and identity.

ghost use Rattle.std.specs.Prelude.{◌≡◌, ◌+◌, ◌≤◌, ◌<◌, ◌++◌, ◌∷◌, [], length, OnOk, Some, slice_get, slice_set, if◌then◌else◌};
ghost use Rattle.wallet_model.specs.Newness.{is_new};
ghost use Rattle.wallet_book.specs.declared.holding.Holding.{Holding as Piece};
ghost use Rattle.wallet_book.specs.declared.holding.State.TheVariants.{Held};
ghost use Rattle.wallet_book.specs.Holdings.{texts_of, AreSpelled, FindsPiece};

use crate::holding::{Holding, State};
use crate::piece_index::PieceIndex;
use mc_base::NoMemory;
use scrip_form::ScripRef;
use std::alloc::Global;
use std::marker::Model;

/// The pieces of a wallet in the order in which they came, found by vendor and identity. Contracts see the
/// pieces, and how many more there is room for.
#[derive(Drop)]
pub(crate) struct Holdings {
    list: Vec<Holding>,
    index: PieceIndex,
}

impl Model for Holdings {
    ghost use Rattle.std.specs.Prelude.{◌-◌, min, vec_len, vec_capacity};
    ghost use Rattle.wallet_book.specs.Holdings.{HoldingsView, IsIndexed, AreSpelled};

    ghost Value = { HoldingsView };

    ghost view = { λ h. record { list = h.list.items; room = min (vec_capacity h.list - vec_len h.list) h.index.room } };

    ghost invariant = { λ h. IsIndexed h.index h.list.items × AreSpelled h.list.items };
}

impl Holdings {
    /// No pieces, and room for none. It takes no memory.
    pub(crate) fn new(alloc: Global) -> Holdings
        ensures { result.list ≡ [] }
    {
        Holdings {
            list: Vec::new(alloc),
            index: PieceIndex::new(alloc),
        }
    }

    /// The pieces, in the order in which they came.
    pub(crate) fn as_slice(&self) -> &[Holding]
        ensures list { result.now ≡ self.now.list }
        ensures spelled { AreSpelled self.now.list }
    {
        self.list.as_slice()
    }

    /// Makes room for so many more pieces. What is held stays.
    pub(crate) fn reserve(&mut self, more: usize) -> Result<(), NoMemory>
        ensures room { OnOk result (more ≤ self.new.room) }
        ensures list { self.new.list ≡ self.old.list }
    {
        self.list.reserve(more)?;
        self.index.reserve(more)?;
        Ok(())
    }

    /// The place of a piece, by vendor and identity; None exactly where it is new.
    pub(crate) fn find(&self, scrip: &ScripRef<'_>) -> Option<usize>
        ensures { FindsPiece self.now.list scrip.now.text result }
    {
        let piece = scrip.piece();
        let _text = scrip.text();
        self.index.get(&piece.vendor(), piece.id())
    }

    /// Puts a piece that is new behind the others, held. False exactly where it came before; then all stays as
    /// it is. It takes no memory.
    pub(crate) fn bring(&mut self, scrip: &ScripRef<'_>, secret: [u8; 16]) -> bool
        requires { 0 < self.old.room }
        ensures answer { result ≡ is_new (texts_of self.old.list) scrip.now.text }
        ensures list { self.new.list ≡ (if result then self.old.list ++ record { piece = scrip.now.piece; cert = scrip.now.cert; secret = secret; state = Held } ∷ [] else self.old.list) }
        ensures room { self.old.room ≤ self.new.room + 1 }
    {
        match self.find(scrip) {
            Some(_) => return false,
            None => (),
        }
        let piece = scrip.piece();
        let _text = scrip.text();
        self.index.put(&piece.vendor(), piece.id(), self.list.len());
        self.list.push_reserved(Holding {
            piece,
            cert: scrip.cert(),
            secret,
            state: State::Held,
        });
        true
    }

    /// Puts the piece of a place in a state; the others stay as they are. It takes no memory.
    pub(crate) fn set_state(&mut self, place: usize, state: State)
        requires { place < length self.old.list }
        ensures list { (x : Piece) → slice_get self.old.list place ≡ Some x
            → self.new.list ≡ slice_set self.old.list place (record x { state = state }) }
        ensures room { self.new.room ≡ self.old.room }
    {
        self.list[place].state = state;
    }
}
