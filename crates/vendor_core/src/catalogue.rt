ghost use Rattle.std.specs.Prelude.{◌≡◌, ◌+◌, ◌<◌, ℕ, [], ◌∷◌, ◌++◌, Some, None, option_map, IfSome, IsTrue, IsFalse, OnOk, length};
ghost use Rattle.std.specs.Option.{option_copied};
ghost use Rattle.std.specs.VecDeque.{deque_len, deque_capacity};
ghost use Rattle.ledger_model.specs.Histories.{History};
ghost use Rattle.house_state.specs.Trade.{IsKeptFrom};
ghost use Rattle.name_places.specs.NamePlaces.{place_of};

use crate::edition::{Article, Edition};
use mc_base::NoMemory;
use name_places::NamePlaces;
use std::alloc::Global;
use std::collections::{HashMap, VecDeque};

/// The goods of the entry of a number, which the entry `by` was the first to replace.
#[derive(Clone, Copy, Drop)]
pub(crate) struct Replaced {
    number: u64,
    by: u64,
}

/// The goods of a vendor: the editions by the numbers of their entries, and which of them each target sells.
/// Both are found in a few looks, however many there are. Goods that were replaced stay until `forget` lets
/// them go.
#[derive(Drop)]
pub(crate) struct Catalogue {
    editions: HashMap<u64, Edition>,
    /// The number of the edition that each target sells.
    on_sale: NamePlaces,
    /// The goods that were replaced and are kept, in the order in which they were replaced.
    replaced: VecDeque<Replaced>,
}

impl Catalogue {
    ghost use Rattle.vendor_core.specs.Editions.{goods_entry, edition_of, sold_at, bytes_of_edition, replaced_by, IsInRange, IsFirstNeeded};
    ghost use Rattle.vendor_core.specs.Catalogue.{CatalogueRepresents, HasEdition, HasRoomAt};

    /// No goods. It takes no memory.
    pub(crate) fn new(alloc: Global) -> Catalogue
        ensures { CatalogueRepresents result [] }
    {
        Catalogue {
            editions: HashMap::new(alloc),
            on_sale: NamePlaces::new(alloc),
            replaced: VecDeque::new(alloc),
        }
    }

    /// The number and the edition of what a target sells; None exactly where it sells nothing.
    pub(crate) fn sold(&self, target: &[u8]) -> Option<(u64, &Edition)>
        ensures edition { option_map (λ p. p.1.now) result
            ≡ sold_at self.now.editions.entries self.now.on_sale target.now }
        ensures number { IfSome result (λ p. place_of self.now.on_sale target.now ≡ Some p.0) }
    {
        let Some(number) = self.on_sale.get(target) else {
            return None;
        };
        let number = number as u64;
        match self.edition(number) {
            Some(edition) => Some((number, edition)),
            None => None,
        }
    }

    /// The edition of the entry of a number; None exactly where it is not there.
    pub(crate) fn edition(&self, number: u64) -> Option<&Edition>
        ensures { option_copied result ≡ edition_of self.now.editions.entries number }
    {
        self.editions.get(&number)
    }

    /// How many bytes of contents a target sells.
    pub(crate) fn bytes_at(&self, target: &[u8]) -> u64
        ensures { result
            ≡ bytes_of_edition (sold_at self.now.editions.entries self.now.on_sale target.now) }
    {
        match self.sold(target) {
            Some((_, edition)) => edition.size(),
            None => 0,
        }
    }

    /// Makes room for goods at a target. What the goods represent stays, also after an `Err`.
    pub(crate) fn reserve(&mut self, target: &[u8]) -> Result<(), NoMemory>
        ensures room { OnOk result (HasRoomAt self.new target.now) }
        ensures same { (h : History) → CatalogueRepresents self.old h → CatalogueRepresents self.new h }
        ensures held { (n : ℕ) → HasEdition self.old n → HasEdition self.new n }
    {
        self.editions.reserve(1)?;
        self.replaced.reserve(1)?;
        self.on_sale.reserve(target)
    }

    /// Puts the article of the entry of a number on sale at a target, for which there is room, in place of
    /// what it sold. It takes no memory.
    pub(crate) fn put(&mut self, target: &[u8], number: u64, article: Article)
        requires room { HasRoomAt self.old target.now }
        requires range { IsInRange article }
        ensures held { (n : ℕ) → HasEdition self.old n → HasEdition self.new n }
        ensures new { HasEdition self.new number }
        ensures learned { (h : History) (m : ℕ) → CatalogueRepresents self.old h → number ≡ length h
            → CatalogueRepresents self.new (h ++ goods_entry m target.now article ∷ []) }
    {
        self.replace(target, number);
        self.on_sale.put(number as usize);
        match self.editions.insert(number, Edition::new(article)) {
            Ok(_) => (),
            Err(_) => unreachable!(),
        }
    }

    /// Puts what a target sells behind the goods that were replaced, by the entry of a number, where it sells
    /// something.
    fn replace(&mut self, target: &[u8], by: u64)
        requires { deque_len self.old.replaced < deque_capacity self.old.replaced }
        ensures replaced { self.new.replaced.items
            ≡ self.old.replaced.items ++ replaced_by by (place_of self.old.on_sale target.now) }
        ensures editions { self.new.editions ≡ self.old.editions }
        ensures on_sale { self.new.on_sale ≡ self.old.on_sale }
    {
        if let Some(number) = self.on_sale.get(target) {
            self.replaced.push_back_reserved(Replaced {
                number: number as u64,
                by,
            });
        }
    }

    /// Lets go what was replaced and what no reply of an entry from this number on brings. It looks at what
    /// goes, and at one more.
    pub(crate) fn forget(&mut self, kept_from: Option<u64>)
        ensures same { (h : History) → CatalogueRepresents self.old h → CatalogueRepresents self.new h }
        ensures held { (h : History) (n : ℕ) → CatalogueRepresents self.old h → IsKeptFrom h kept_from n
            → HasEdition self.old n → HasEdition self.new n }
        ensures freed { (h : History) (n : ℕ) → CatalogueRepresents self.old h → HasEdition self.new n
            → IsKeptFrom h kept_from n }
    {
        for _ in 0..self.replaced.len() {
            if !self.forget_first(kept_from) {
                return;
            }
        }
    }

    /// Lets go the goods that were replaced first, where no reply of an entry from this number on brings
    /// them; false exactly where there are none, and then all is as it was.
    fn forget_first(&mut self, kept_from: Option<u64>) -> bool
        ensures last { IsFalse result
            → (self.new ≡ self.old) × IsFirstNeeded kept_from self.old.replaced.items }
        ensures one { IsTrue result → length self.new.replaced.items + 1 ≡ length self.old.replaced.items }
        ensures same { (h : History) → CatalogueRepresents self.old h → CatalogueRepresents self.new h }
        ensures held { (h : History) (n : ℕ) → CatalogueRepresents self.old h → IsKeptFrom h kept_from n
            → HasEdition self.old n → HasEdition self.new n }
    {
        let Some(&first) = self.replaced.front() else {
            return false;
        };
        if kept_from.is_some_and(|from| from < first.by) {
            return false;
        }
        self.replaced.pop_front();
        self.editions.remove(&first.number);
        true
    }
}
