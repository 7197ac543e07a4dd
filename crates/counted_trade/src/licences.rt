//! The licences of a broker.

ghost use Rattle.std.specs.Prelude.{◌≡◌, ◌++◌, ◌∷◌, [], option_map, OnOk};
ghost use Rattle.mc_records.specs.Views.{entry};
ghost use Rattle.ledger_model.specs.Histories.{History};
ghost use Rattle.ledger_model.specs.Stock.{licence_in};
ghost use Rattle.counted_trade.specs.Licences.{LicencesStand, HasRoomToLicense};

use mc_base::NoMemory;
use mc_records::Record;
use name_places::NamePlaces;
use scrip_form::Terms;
use std::alloc::Global;

/// The terms of each vendor's licence, found in a few looks, however many there are.
#[derive(Drop)]
pub(crate) struct Licences {
    /// Where among the terms those of each vendor stand.
    places: NamePlaces,
    terms: Vec<Terms>,
}

impl Licences {
    /// The licences of an empty history. It takes no memory.
    pub(crate) fn new(alloc: Global) -> Licences
        ensures { LicencesStand result [] }
    {
        Licences {
            places: NamePlaces::new(alloc),
            terms: Vec::new(alloc),
        }
    }

    /// The terms of the licence for a vendor.
    pub(crate) fn get(&self, vendor: &[u8]) -> Option<&Terms>
        ensures { (h : History) → LicencesStand self.now h
            → option_map (λ t. t.now) result ≡ licence_in h vendor.now }
    {
        let place = self.places.get(vendor)?;
        self.terms.get(place)
    }

    /// Makes room for what an entry adds. All licences stay as they are, after an `Err` too.
    pub(crate) fn reserve(&mut self, r: &Record<'_>) -> Result<(), NoMemory>
        ensures room { OnOk result (HasRoomToLicense self.new (entry r.now)) }
        ensures same { (h : History) → LicencesStand self.old h → LicencesStand self.new h }
    {
        let Record::Licence { vendor, .. } = *r else {
            return Ok(());
        };
        self.terms.reserve(1)?;
        self.places.reserve(vendor)
    }

    /// Counts the next entry, for which there is room: a vendor's first licence stands. It takes no memory.
    pub(crate) fn count(&mut self, r: &Record<'_>)
        requires room { HasRoomToLicense self.old (entry r.now) }
        ensures counted { (h : History) → LicencesStand self.old h
            → LicencesStand self.new (h ++ entry r.now ∷ []) }
    {
        let Record::Licence { vendor, terms, .. } = *r else {
            return;
        };
        if self.places.get(vendor).is_none() {
            self.places.put(self.terms.len());
            self.terms.push_reserved(terms.terms());
        }
    }
}
