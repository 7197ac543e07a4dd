//! Where a piece stands in a list of pieces, by its vendor and identity.

ghost use Rattle.std.specs.Prelude.{◌≡◌, ◌+◌, ◌≤◌, ◌<◌, ◌==◌, ◌&&◌, bytes_eq, ℕ, List, None, Some, OnOk, if◌then◌else◌};
ghost use Rattle.wallet_book.specs.PieceIndex.{place_of, key_of};

use mc_base::NoMemory;
use scrip_form::{Id, Name, with_zeros};
use std::alloc::Global;
use std::collections::HashMap;
use std::marker::Model;

/// An identity, and the length and the bytes of a name with zeros behind them.
type Key = (u64, usize, [u8; 63]);

/// The places of pieces in a list, by vendor and identity. A piece is found in a few looks, however many there
/// are. Contracts see the place of each, and how many more there is room for.
#[derive(Drop)]
pub(crate) struct PieceIndex {
    places: HashMap<Key, usize>,
}

impl Model for PieceIndex {
    ghost use Rattle.std.specs.HashMap.{spare};
    ghost use Rattle.wallet_book.specs.PieceIndex.{PieceIndexView};

    ghost Value = { PieceIndexView };

    ghost view = { λ i. record { places = i.places.entries; room = spare i.places } };
}

impl PieceIndex {
    /// No pieces, and room for none. It takes no memory.
    pub(crate) fn new(alloc: Global) -> PieceIndex
        ensures { (vendor : List ℕ) (id : ℕ) → place_of result vendor id ≡ None }
    {
        PieceIndex {
            places: HashMap::new(alloc),
        }
    }

    /// The place of the piece of this vendor and identity; None exactly where it has none.
    pub(crate) fn get(&self, vendor: &Name, id: Id) -> Option<usize>
        ensures { result ≡ place_of self.now vendor.now id }
    {
        self.places.get(&key(vendor, id)).copied()
    }

    /// Makes room for so many more. The places stay.
    pub(crate) fn reserve(&mut self, more: usize) -> Result<(), NoMemory>
        ensures room { OnOk result (more ≤ self.new.room) }
        ensures places { (vendor : List ℕ) (id : ℕ) → place_of self.new vendor id ≡ place_of self.old vendor id }
    {
        self.places.reserve(more)?;
        Ok(())
    }

    /// Gives a piece its place; the others keep theirs. It takes no memory.
    pub(crate) fn put(&mut self, vendor: &Name, id: Id, place: usize)
        requires { 0 < self.old.room }
        ensures room { self.old.room ≤ self.new.room + 1 }
        ensures places { (other : List ℕ) (number : ℕ) → place_of self.new other number
            ≡ (if id == number && bytes_eq vendor.now other then Some place else place_of self.old other number) }
    {
        match self.places.insert(key(vendor, id), place) {
            Ok(_) => (),
            Err(_) => unreachable!(),
        }
    }
}

/// The key of a vendor and an identity.
fn key(vendor: &Name, id: Id) -> Key
    ensures { result ≡ key_of vendor.now id }
{
    let bytes = vendor.bytes();
    (id.number(), bytes.len(), with_zeros(bytes))
}
