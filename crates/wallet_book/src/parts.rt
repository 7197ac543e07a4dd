//! The pieces and the kept requests of a wallet, and how they go on with its entries.

ghost use Rattle.std.specs.Prelude.{◌≡◌, ◌==◌, ◌+◌, ◌<◌, ◌≤◌, ◌∷◌, [], length, not, filter, find, vec_len, vec_capacity, true, IfSome, OnOk, option_map, option_to_list};
ghost use Rattle.scrip_form.specs.Scrip.{IsScripText};
ghost use Rattle.mc_records.specs.PieceViews.{pieces_of};
ghost use Rattle.mc_records.specs.Views.{held_of};
ghost use Rattle.wallet_book.specs.Parts.{Brings, in_state_at};

use crate::holding::State;
use crate::holdings::Holdings;
use crate::kept::Kept;
use mc_base::NoMemory;
use mc_records::PieceList;
use scrip_form::{ScripRef, read_scrip};
use std::alloc::Global;

/// The pieces and the kept requests.
#[derive(Drop)]
pub(crate) struct Parts {
    pub(crate) holdings: Holdings,
    /// In the order of their numbers.
    pub(crate) kept: Vec<Kept>,
}

impl Parts {
    /// No pieces and no requests. It takes no memory.
    pub(crate) fn new(alloc: Global) -> Parts
        ensures pieces { result.holdings.list ≡ [] }
        ensures kept { result.kept.items ≡ [] }
    {
        Parts {
            holdings: Holdings::new(alloc),
            kept: Vec::new(alloc),
        }
    }

    /// Makes room for so many more pieces, and for one more request where there is to be one.
    pub(crate) fn reserve(&mut self, pieces: usize, requests: usize) -> Result<(), NoMemory>
        ensures pieces { OnOk result (pieces ≤ self.new.holdings.room) }
        ensures requests { OnOk result (vec_len self.new.kept + requests ≤ vec_capacity self.new.kept) }
        ensures list { self.new.holdings.list ≡ self.old.holdings.list }
        ensures kept { self.new.kept.items ≡ self.old.kept.items }
    {
        self.holdings.reserve(pieces)?;
        self.kept.reserve(requests)?;
        Ok(())
    }

    /// The kept request of a number.
    pub(crate) fn find(&self, number: u64) -> Option<Kept>
        ensures { result ≡ find (λ k. number == k.number) self.now.kept.items }
    {
        for k in &self.kept {
            if number == k.number {
                return Some(*k);
            }
        }
        None
    }

    /// Takes the request of a number off, and puts the piece that it paid with in a state. It takes no memory.
    pub(crate) fn settle(&mut self, number: u64, state: State) -> Option<Kept>
        ensures found { result ≡ find (λ k. number == k.number) self.old.kept.items }
        ensures kept { IfSome result (λ k. self.new.kept.items ≡ filter (λ k. not (number == k.number)) self.old.kept.items) }
        ensures pieces { IfSome result (λ k. self.new.holdings.list ≡ in_state_at self.old.holdings.list k.place state) }
        ensures room { self.new.holdings.room ≡ self.old.holdings.room }
    {
        let kept = self.find(number)?;
        put_in_state(&mut self.holdings, kept.place, state);
        self.kept.retain(|k| number != k.number);
        Some(kept)
    }
}

/// Puts the piece of a place, where there is one, in a state. It takes no memory.
pub(crate) fn put_in_state(holdings: &mut Holdings, place: Option<usize>, state: State)
    ensures list { holdings.new.list ≡ in_state_at holdings.old.list place state }
    ensures room { holdings.new.room ≡ holdings.old.room }
{
    match place {
        Some(place) if place < holdings.as_slice().len() => holdings.set_state(place, state),
        _ => (),
    }
}

/// Puts a piece behind the others; false exactly where it came before. It takes no memory.
fn bring(holdings: &mut Holdings, scrip: &ScripRef<'_>, secret: [u8; 16]) -> bool
    requires { 0 < holdings.old.room }
    ensures brings { Brings holdings.old.list holdings.new.list (record { text = scrip.now.text; secret = secret } ∷ []) result }
    ensures room { holdings.old.room ≤ holdings.new.room + 1 }
{
    let _text = scrip.text();
    holdings.bring(scrip, secret)
}

/// Puts a piece behind the others, where there is one; false exactly where it came before. It takes no memory.
pub(crate) fn bring_if(holdings: &mut Holdings, piece: Option<(&[u8], [u8; 16])>) -> bool
    requires text { IfSome piece (λ p. IsScripText p.0.now) }
    requires room { length (option_to_list piece) ≤ holdings.old.room }
    ensures brings { Brings holdings.old.list holdings.new.list (option_to_list (option_map held_of piece.entry)) result }
    ensures room { holdings.old.room ≤ holdings.new.room + length (option_to_list piece.entry) }
{
    let (text, secret) = match piece {
        Some(piece) => piece,
        None => return true,
    };
    match read_scrip(text) {
        Ok(scrip) => bring(holdings, &scrip, secret),
        // The text is a scrip text.
        Err(_) => unreachable!(),
    }
}

/// Puts some pieces behind the others; false exactly where one came before, or comes twice. It takes no
/// memory.
pub(crate) fn bring_all(holdings: &mut Holdings, pieces: &PieceList<'_>) -> bool
    requires { length (pieces_of pieces.now) ≤ holdings.old.room }
    ensures { Brings holdings.old.list holdings.new.list (pieces_of pieces.now) result }
{
    let mut rest = Some(*pieces);
    while let Some(list) = rest {
        let (piece, more) = list.split_first();
        let (scrip, secret) = piece;
        if !bring(holdings, &scrip, secret) {
            return false;
        }
        rest = more;
    }
    true
}
