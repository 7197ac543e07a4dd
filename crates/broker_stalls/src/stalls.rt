ghost use Rattle.std.specs.Prelude.{◌≡◌, ◌↔◌, ◌++◌, ◌∷◌, [], ℕ, List, Option, Some, false, true, IsTrue, IsFalse, IsNone, IsSome, OnOk};
ghost use Rattle.scrip_form.specs.Identities.{series_of};
ghost use Rattle.scrip_form.specs.Issuing.{HasPeriod};
ghost use Rattle.scrip_form.specs.Texts.{IsName};
ghost use Rattle.mc_records.specs.Entry.{Entry, Accept, Licence, Stock};
ghost use Rattle.mc_records.specs.PieceViews.{pieces_of};
ghost use Rattle.mc_records.specs.Views.{deed_of, entry};
ghost use Rattle.ledger_model.specs.Histories.{History};
ghost use Rattle.ledger_model.specs.Stock.{licence_in, knows_vendor, stock_ids, are_stock, sale_of, names_vendor};
ghost use Rattle.ledger_model.specs.Taken.{IsFromStock};
ghost use Rattle.broker_stalls.specs.Stalls.{HasSeries};
ghost use Rattle.broker_stalls.specs.Listed.{HasRoomFor};
ghost use Rattle.broker_stalls.specs.Shown.{Shows};
ghost use Rattle.broker_stalls.specs.Vendors.{stall_of, found_stall, StallsRepresent, AreAlike, HasStall, StallsHaveRoom, StallFits, StallsAllow, StallsAnswer};

use crate::stall::Stall;
use crate::target::bought;
use mc_base::{Amount, Moment, NoMemory};
use mc_records::{PieceList, Record, RecordDeed};
use name_places::NamePlaces;
use scrip_form::{Id, Name, Terms};
use std::alloc::Global;
use std::marker::Model;

/// What a broker has to sell, of all vendors. The stall of a vendor is found in a few looks, however many there
/// are. Contracts see the record `StallsView`, and speak of a vendor by `stall_of`.
#[derive(Drop)]
pub struct Stalls {
    stalls: Vec<Stall>,
    /// Where the stall of each vendor stands.
    places: NamePlaces,
    alloc: Global,
}

impl Model for Stalls {
    ghost use Rattle.broker_stalls.specs.Vendors.{StallsView, AreFiled};

    ghost Value = { StallsView };

    ghost view = { λ s. record { places = s.places; stalls = s.stalls.items } };

    ghost invariant = { λ s. AreFiled s.places s.stalls.items };
}

impl Stalls {
    /// The stalls of an empty history: there are none. It takes no memory.
    pub fn new(alloc: Global) -> Stalls
        ensures { StallsRepresent result [] }
    {
        Stalls {
            stalls: Vec::new(alloc),
            places: NamePlaces::new(alloc),
            alloc,
        }
    }

    /// The stall of a vendor. Where there is none, the broker has not heard of him. A stall with nothing tells the
    /// same.
    pub fn stall(&self, vendor: &[u8]) -> Option<&Stall>
        ensures found { found_stall result ≡ stall_of self.now vendor.now }
        ensures shows { (h : History) → StallsRepresent self.now h
            → Shows h vendor.now (found_stall result) }
        ensures unknown { (h : History) → StallsRepresent self.now h → IsNone result
            → knows_vendor h vendor.now ≡ false }
    {
        match self.places.get(vendor) {
            Some(place) => Some(&self.stalls[place]),
            None => None,
        }
    }

    /// Makes room for what an entry adds. What is told of all vendors stays, also after an `Err`.
    pub fn reserve(&mut self, r: &Record<'_>) -> Result<(), NoMemory>
        ensures room { OnOk result (StallsHaveRoom self.new (entry r.now)) }
        ensures same { (h : History) → StallsRepresent self.old h → StallsRepresent self.new h }
    {
        match *r {
            Record::Licence { vendor, .. } => self.place(vendor),
            Record::Stock { vendor, pieces, .. } => {
                self.place(vendor)?;
                self.reserve_stock(vendor, &pieces)
            }
            Record::Accept { target, deed, .. } => self.reserve_sale(target, deed),
            _ => Ok(()),
        }
    }

    /// Learns the next entry, for which there is room; false exactly where the stalls don't allow it, and all that is
    /// told of vendors is then as it was. A sale was judged by the stalls before it was answered, and is only counted
    /// here. It takes no memory.
    pub fn learn(&mut self, r: &Record<'_>) -> bool
        requires room { StallsHaveRoom self.old (entry r.now) }
        requires fits { StallFits (entry r.now) }
        ensures exact { (h : History) → StallsRepresent self.old h
            → IsTrue result ↔ StallsAllow h (entry r.now) }
        ensures learned { (most : ℕ) (h : History) → StallsRepresent self.old h
            → StallsAnswer most h (entry r.now) → IsTrue result
            → StallsRepresent self.new (h ++ entry r.now ∷ []) }
        ensures same { (h : History) → StallsRepresent self.old h → IsFalse result
            → StallsRepresent self.new h }
    {
        match *r {
            Record::Licence { vendor, terms, .. } => self.license(vendor, &terms.terms()),
            Record::Stock { vendor, pieces, .. } => self.stock(vendor, &pieces),
            Record::Accept {
                moment,
                target,
                deed,
                ..
            } => {
                self.sell(moment, target, deed);
                true
            }
            _ => true,
        }
    }

    /// Sees that a vendor has a stall.
    fn place(&mut self, vendor: &[u8]) -> Result<(), NoMemory>
        ensures placed { OnOk result (HasStall self.new vendor.now) }
        ensures same { AreAlike self.old self.new }
    {
        if self.places.get(vendor).is_some() {
            return Ok(());
        }
        self.stalls.reserve(1)?;
        self.places.reserve(vendor)?;
        self.places.put(self.stalls.len());
        self.stalls.push_reserved(Stall::new(self.alloc));
        Ok(())
    }

    /// Makes room in the stall of a vendor for the pieces of a Stock entry.
    fn reserve_stock(&mut self, vendor: &[u8], pieces: &PieceList<'_>) -> Result<(), NoMemory>
        requires { HasStall self.old vendor.now }
        ensures room { OnOk result (HasRoomFor (stall_of self.new vendor.now) (pieces_of pieces.now)) }
        ensures placed { HasStall self.new vendor.now }
        ensures same { AreAlike self.old self.new }
    {
        let place = self.places.get(vendor).unwrap();
        self.stalls[place].reserve_stock(pieces)
    }

    /// Makes room for what a target buys by a deed.
    fn reserve_sale(&mut self, target: &[u8], deed: RecordDeed) -> Result<(), NoMemory>
        ensures room { (m : ℕ) (scrip : List ℕ) (sign : Option (List ℕ)) (price : ℕ) (change : Option ℕ)
            → OnOk result
            (StallsHaveRoom self.new (Accept m scrip target.now sign price change (deed_of deed))) }
        ensures same { AreAlike self.old self.new }
    {
        let RecordDeed::Sale { stock, id } = deed else {
            return Ok(());
        };
        if stock {
            return Ok(());
        }
        match bought(target) {
            Some(asked) => self.reserve_series(asked.vendor.bytes(), id.series()),
            None => Ok(()),
        }
    }

    /// Makes room for one more piece of a series under the licence of a vendor.
    fn reserve_series(&mut self, vendor: &[u8], series: u32) -> Result<(), NoMemory>
        ensures room { OnOk result (HasSeries (stall_of self.new vendor.now) series) }
        ensures same { AreAlike self.old self.new }
    {
        match self.places.get(vendor) {
            Some(place) => self.stalls[place].reserve_series(series),
            None => Ok(()),
        }
    }

    /// Takes the licence of a vendor, who has a stall.
    fn license(&mut self, vendor: &[u8], terms: &Terms) -> bool
        requires placed { HasStall self.old vendor.now }
        requires period { HasPeriod terms.now.period terms.now.life }
        ensures exact { (h : History) → StallsRepresent self.old h
            → IsTrue result ↔ IsNone (licence_in h vendor.now) }
        ensures learned { (h : History) (m : ℕ) → StallsRepresent self.old h → IsTrue result
            → StallsRepresent self.new (h ++ Licence m vendor.now terms.now ∷ []) }
        ensures same { (h : History) → StallsRepresent self.old h → IsFalse result
            → StallsRepresent self.new h }
    {
        let place = self.places.get(vendor).unwrap();
        self.stalls[place].learn_licence(terms)
    }

    /// Takes pieces of a vendor into stock, for which there is room.
    fn stock(&mut self, vendor: &[u8], pieces: &PieceList<'_>) -> bool
        requires name { IsName vendor.now }
        requires placed { HasStall self.old vendor.now }
        requires room { HasRoomFor (stall_of self.old vendor.now) (pieces_of pieces.now) }
        ensures exact { (h : History) → StallsRepresent self.old h
            → IsTrue result ↔ IsTrue (are_stock vendor.now (stock_ids h vendor.now) (pieces_of pieces.now)) }
        ensures learned { (h : History) (m : ℕ) → StallsRepresent self.old h → IsTrue result
            → StallsRepresent self.new (h ++ Stock m vendor.now (pieces_of pieces.now) ∷ []) }
        ensures same { (h : History) → StallsRepresent self.old h → IsFalse result
            → StallsRepresent self.new h }
    {
        let name = Name::new(vendor).unwrap();
        let place = self.places.get(vendor).unwrap();
        self.stalls[place].learn_stock(&name, pieces)
    }

    /// Counts what a target bought by a deed at a moment.
    fn sell(&mut self, now: Moment, target: &[u8], deed: RecordDeed)
        requires { (m : ℕ) (scrip : List ℕ) (sign : Option (List ℕ)) (price : ℕ) (change : Option ℕ)
            → StallsHaveRoom self.old (Accept m scrip target.now sign price change (deed_of deed)) }
        ensures { (most : ℕ) (h : History) (scrip : List ℕ) (sign : Option (List ℕ)) (price : ℕ)
            (change : Option ℕ) → StallsRepresent self.old h
            → StallsAnswer most h (Accept now scrip target.now sign price change (deed_of deed))
            → StallsRepresent self.new
            (h ++ Accept now scrip target.now sign price change (deed_of deed) ∷ []) }
    {
        let RecordDeed::Sale { stock, id } = deed else {
            return;
        };
        let Some(asked) = bought(target) else {
            return;
        };
        if stock {
            self.sell_from_stock(asked.vendor.bytes(), asked.value, now);
        } else {
            self.sell_licensed(asked.vendor.bytes(), id);
        }
    }

    /// Sells the first piece of a value in the stock of a vendor that is for sale at a moment.
    fn sell_from_stock(&mut self, vendor: &[u8], value: Amount, now: Moment)
        ensures { (h : History) (e : Entry) (id : ℕ) → StallsRepresent self.old h
            → sale_of e ≡ Some (record { vendor = vendor.now; value = value; stock = true; id = id })
            → ((q : List ℕ) → names_vendor q e ≡ false) → IsFromStock h now vendor.now value id
            → StallsRepresent self.new (h ++ e ∷ []) }
    {
        match self.places.get(vendor) {
            Some(place) => {
                self.stalls[place].sell_first(value, now);
            }
            None => (),
        }
    }

    /// Counts a piece that was sold under the licence of a vendor.
    fn sell_licensed(&mut self, vendor: &[u8], id: Id)
        requires { HasSeries (stall_of self.old vendor.now) (series_of id) }
        ensures { (h : History) (e : Entry) (value : ℕ) → StallsRepresent self.old h
            → sale_of e ≡ Some (record { vendor = vendor.now; value = value; stock = false; id = id })
            → ((q : List ℕ) → names_vendor q e ≡ false) → IsSome (licence_in h vendor.now)
            → StallsRepresent self.new (h ++ e ∷ []) }
    {
        match self.places.get(vendor) {
            Some(place) => {
                self.stalls[place].sell_licensed(id);
            }
            None => (),
        }
    }
}
