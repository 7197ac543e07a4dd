ghost use Rattle.std.specs.Prelude.{◌≡◌, ℕ, List, None, Some, bytes_eq, if◌then◌else◌, IsSome, OnOk, OnErr};
ghost use Rattle.name_places.specs.NamePlaces.{place_of};

use mc_base::NoMemory;
use std::alloc::Global;
use std::collections::HashMap;
use std::marker::Model;

/// Names with a place each. A name is found in a few looks, however many there are. It is any bytes,
/// and its place any number, as a rule the index of what is known of it in a `Vec`. A place is put in
/// two steps, so that the second can't fail: `reserve` makes room for the name, and `put` gives it its
/// place.
///
/// Contracts see it as the record `NamePlacesView`: the place of each name, and the name for which
/// there is room.
#[derive(Drop)]
pub struct NamePlaces {
    places: HashMap<Vec<u8>, usize>,
    /// The bytes of the name for which there is room.
    next: Option<Vec<u8>>,
    alloc: Global,
}

impl Model for NamePlaces {
    ghost use Rattle.std.specs.Prelude.{ℕ, ◌<◌, IsSome, option_map, map};
    ghost use Rattle.std.specs.HashMap.{spare};
    ghost use Rattle.name_places.specs.NamePlaces.{NamePlacesView};

    ghost Value = { NamePlacesView };

    ghost view = { λ p. record { places = map (λ e. (e.0.items, e.1)) p.places.entries; room = option_map (λ v. v.items) p.next } };

    ghost invariant = { λ p. IsSome p.next → 0 < spare p.places };
}

impl NamePlaces {
    /// No names, and room for none. It takes no memory.
    pub fn new(alloc: Global) -> NamePlaces
        ensures places { (name : List ℕ) → place_of result name ≡ None }
        ensures room { result.room ≡ None }
    {
        NamePlaces {
            places: HashMap::new(alloc),
            next: None,
            alloc,
        }
    }

    /// The place of a name; None exactly where it has none.
    pub fn get(&self, name: &[u8]) -> Option<usize>
        ensures { result ≡ place_of self.now name.now }
    {
        self.places.get(name).copied()
    }

    /// Makes room for a name, in place of the one for which there was room. The places stay. After an
    /// `Err` all is as it was.
    pub fn reserve(&mut self, name: &[u8]) -> Result<(), NoMemory>
        ensures room { OnOk result (self.new.room ≡ Some name.now) }
        ensures err { OnErr result (self.new.room ≡ self.old.room) }
        ensures places { (q : List ℕ) → place_of self.new q ≡ place_of self.old q }
    {
        let bytes = Vec::from_slice(self.alloc, name)?;
        self.places.reserve(1)?;
        self.next = Some(bytes);
        Ok(())
    }

    /// Gives the name for which there is room this place, in the place of an earlier one. Other names
    /// keep theirs, and there is no room then. It takes no memory.
    pub fn put(&mut self, place: usize)
        requires { IsSome self.old.room }
        ensures places { (name : List ℕ) → self.old.room ≡ Some name → (q : List ℕ)
            → place_of self.new q ≡ (if bytes_eq q name then Some place else place_of self.old q) }
        ensures room { self.new.room ≡ None }
    {
        let name = self.next.take().unwrap();
        match self.places.insert(name, place) {
            Ok(_) => (),
            Err(_) => unreachable!(),
        }
    }
}
