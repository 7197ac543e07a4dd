ghost use Rattle.std.specs.Prelude.{◌≡◌, ◌<◌, ◌≤◌, ◌-◌, ◌==◌, ◌++◌, ◌∷◌, [], ℕ, find, is_some, if◌then◌else◌, IsTrue, OnOk};
ghost use Rattle.broker_stock.specs.Racks.{is_open, sold_first};
ghost use Rattle.broker_stock.specs.Shelves.{has_rack, pieces_at, room_at};

use crate::piece::StockPiece;
use crate::rack::Rack;
use mc_base::{Moment, NoMemory};
use std::alloc::Global;
use std::collections::HashMap;
use std::marker::Model;

/// Racks, one for each value of pieces, in units, with the pieces that were not sold. The rack of a value is found in
/// a few looks, however many there are. A value without a rack has no pieces.
///
/// Contracts see them as the list of values with their racks, and speak of a value by `pieces_at` and `room_at`.
#[derive(Drop)]
pub struct Racks {
    racks: HashMap<u64, Rack>,
    alloc: Global,
}

impl Model for Racks {
    ghost use Rattle.std.specs.Prelude.{ℕ, List};
    ghost use Rattle.broker_stock.specs.Racks.{RackView};

    ghost Value = { List (ℕ × RackView) };

    ghost view = { λ r. r.racks.entries };
}

impl Racks {
    /// No pieces, and room for none. It takes no memory.
    pub fn new(alloc: Global) -> Racks
        ensures pieces { (v : ℕ) → pieces_at result v ≡ [] }
        ensures room { (v : ℕ) → room_at result v ≡ 0 }
    {
        Racks {
            racks: HashMap::new(alloc),
            alloc,
        }
    }

    /// Makes room for so many more pieces of a value. The pieces stay, and no value has less room, also after
    /// an `Err`.
    pub fn reserve(&mut self, value: u64, count: usize) -> Result<(), NoMemory>
        ensures room { OnOk result (count ≤ room_at self.new value) }
        ensures more { (v : ℕ) → room_at self.old v ≤ room_at self.new v }
        ensures pieces { (v : ℕ) → pieces_at self.new v ≡ pieces_at self.old v }
    {
        self.place_rack(value)?;
        self.reserve_on(value, count)
    }

    /// Puts a piece behind the others of a value, which has room. It takes no memory.
    pub fn put(&mut self, value: u64, piece: StockPiece)
        requires { 0 < room_at self.old value }
        ensures pieces { (v : ℕ) → pieces_at self.new v
            ≡ (if value == v then pieces_at self.old v ++ piece ∷ [] else pieces_at self.old v) }
        ensures room { (v : ℕ) → room_at self.new v
            ≡ (if value == v then room_at self.old v - 1 else room_at self.old v) }
    {
        let rack = self.racks.get_mut(&value).unwrap();
        rack.put(piece);
    }

    /// The first piece of a value that is for sale at a moment.
    pub fn first(&self, value: u64, now: Moment) -> Option<StockPiece>
        ensures { result ≡ find (is_open now) (pieces_at self.now value) }
    {
        match self.racks.get(&value) {
            Some(rack) => rack.first(now),
            None => None,
        }
    }

    /// Sells the first piece of a value that is for sale at a moment, and lets go of it; false where there is none,
    /// and all is then as it was. It takes no memory.
    pub fn sell_first(&mut self, value: u64, now: Moment) -> bool
        ensures sold { (v : ℕ) → pieces_at self.new v
            ≡ (if value == v then sold_first now (pieces_at self.old v) else pieces_at self.old v) }
        ensures some { result ≡ is_some (find (is_open now) (pieces_at self.old value)) }
        ensures more { (v : ℕ) → room_at self.old v ≤ room_at self.new v }
    {
        let rack = match self.racks.get_mut(&value) {
            Some(rack) => rack,
            None => return false,
        };
        rack.sell_first(now)
    }

    /// Sees that a value has a rack.
    fn place_rack(&mut self, value: u64) -> Result<(), NoMemory>
        ensures placed { OnOk result (IsTrue (has_rack self.new value)) }
        ensures room { (v : ℕ) → room_at self.new v ≡ room_at self.old v }
        ensures pieces { (v : ℕ) → pieces_at self.new v ≡ pieces_at self.old v }
    {
        if !self.racks.contains_key(&value) {
            self.racks.insert(value, Rack::new(self.alloc))?;
        }
        Ok(())
    }

    /// Makes room on the rack of a value, which has one.
    fn reserve_on(&mut self, value: u64, count: usize) -> Result<(), NoMemory>
        requires { IsTrue (has_rack self.old value) }
        ensures room { OnOk result (count ≤ room_at self.new value) }
        ensures more { (v : ℕ) → room_at self.old v ≤ room_at self.new v }
        ensures pieces { (v : ℕ) → pieces_at self.new v ≡ pieces_at self.old v }
    {
        let rack = self.racks.get_mut(&value).unwrap();
        rack.reserve(count)
    }
}
