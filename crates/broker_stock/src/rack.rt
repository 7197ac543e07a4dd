ghost use Rattle.std.specs.Prelude.{◌≡◌, ◌<◌, ◌≤◌, ◌+◌, ◌++◌, ◌∷◌, [], find, length, is_some, OnOk, MatchOption};
ghost use Rattle.broker_stock.specs.Racks.{is_open, sold_first, AreClosed, IsPassed, IsFirstOpen};

use crate::piece::StockPiece;
use mc_base::{Moment, NoMemory};
use std::alloc::Global;
use std::collections::VecDeque;
use std::marker::Model;

/// Pieces of one value that were not sold, in the order in which they came. The first ones that have ended are
/// passed over once, as long as the moments that are asked for rise. Contracts see it as the record
/// `RackView`: the pieces, and how many more there is room for.
#[derive(Drop)]
pub(crate) struct Rack {
    pieces: VecDeque<StockPiece>,
    /// How many of the first pieces have ended.
    ended: usize,
    /// The moment at which that was seen: that of the last sale.
    noted: Moment,
}

impl Model for Rack {
    ghost use Rattle.std.specs.Prelude.{◌-◌};
    ghost use Rattle.std.specs.VecDeque.{deque_len, deque_capacity};
    ghost use Rattle.broker_stock.specs.Racks.{RackView, IsPassed};

    ghost Value = { RackView };

    ghost view = { λ r. record { pieces = r.pieces.items; room = deque_capacity r.pieces - deque_len r.pieces } };

    ghost invariant = { λ r. IsPassed r.noted r.ended r.pieces.items };
}

impl Rack {
    /// No pieces. It takes no memory.
    pub(crate) fn new(alloc: Global) -> Rack
        ensures pieces { result.pieces ≡ [] }
        ensures room { result.room ≡ 0 }
    {
        Rack {
            pieces: VecDeque::from_vec(Vec::new(alloc)),
            ended: 0,
            noted: Moment::clamped(0),
        }
    }

    /// Makes room for so many more pieces. The pieces stay.
    pub(crate) fn reserve(&mut self, count: usize) -> Result<(), NoMemory>
        ensures room { OnOk result (count ≤ self.new.room) }
        ensures more { self.old.room ≤ self.new.room }
        ensures pieces { self.new.pieces ≡ self.old.pieces }
    {
        self.pieces.reserve(count)?;
        Ok(())
    }

    /// Puts a piece behind the others, for which there is room. It takes no memory.
    pub(crate) fn put(&mut self, piece: StockPiece)
        requires { 0 < self.old.room }
        ensures pieces { self.new.pieces ≡ self.old.pieces ++ piece ∷ [] }
        ensures room { self.old.room ≡ self.new.room + 1 }
    {
        self.pieces.push_back_reserved(piece);
    }

    /// The first piece that is for sale at a moment.
    pub(crate) fn first(&self, now: Moment) -> Option<StockPiece>
        ensures { result ≡ find (is_open now) self.now.pieces }
    {
        match place_of_open(&self.pieces, self.start(now), now) {
            Some(place) => Some(self.pieces[place]),
            None => None,
        }
    }

    /// Sells the first piece that is for sale at a moment, and lets go of it; false where there is none, and all
    /// is then as it was. Those before it move by a place. It takes no memory.
    pub(crate) fn sell_first(&mut self, now: Moment) -> bool
        ensures sold { self.new.pieces ≡ sold_first now self.old.pieces }
        ensures some { result ≡ is_some (find (is_open now) self.old.pieces) }
        ensures more { self.old.room ≤ self.new.room }
    {
        let place = match place_of_open(&self.pieces, self.start(now), now) {
            Some(place) => place,
            None => return false,
        };
        self.pieces.remove(place);
        self.ended = place;
        self.noted = now;
        true
    }

    /// How many of the first pieces need no look at a moment. Before the moment of the last sale a piece
    /// that had ended then may be for sale, so there it is none.
    fn start(&self, now: Moment) -> usize
        ensures { IsPassed now result self.now.pieces }
    {
        if now.seconds() < self.noted.seconds() {
            0
        } else {
            self.ended
        }
    }
}

/// The place of the first piece that is for sale at a moment, where those before a start are not.
fn place_of_open(pieces: &VecDeque<StockPiece>, start: usize, now: Moment) -> Option<usize>
    requires { IsPassed now start pieces.now.items }
    ensures { MatchOption result (AreClosed now (length pieces.now.items) pieces.now.items)
        (IsFirstOpen now pieces.now.items) }
{
    for place in start..pieces.len() {
        if is_open(&pieces[place], now) {
            return Some(place);
        }
    }
    None
}

/// Whether a piece is for sale at a moment.
fn is_open(p: &StockPiece, now: Moment) -> bool
    ensures { result ≡ is_open now p.now }
{
    now.seconds() < p.expires
}
