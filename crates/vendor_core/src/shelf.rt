ghost use Rattle.std.specs.Prelude.{◌≡◌, ℕ, ◌↔◌, ◌≤◌, [], ◌∷◌, ◌++◌, Some, map, option_map, IsSome, IfSome, IsFalse, IsOk, OnOk, OnErr, length};
ghost use Rattle.mc_records.specs.declared.ranges.TheConstants.{MOST_CONTENTS};
ghost use Rattle.mc_records.specs.Entry.{Goods, Mint};
ghost use Rattle.ledger_model.specs.declared.numbers.TheConstants.{MOST_IN_FORCE};
ghost use Rattle.ledger_model.specs.Histories.{History};
ghost use Rattle.ledger_model.specs.Goods as goods;
ghost use Rattle.ledger_model.specs.Pieces.{has_reference};
ghost use Rattle.house_state.specs.Replying.{AreContents};

use crate::catalogue::Catalogue;
use crate::edition::Article;
use crate::minted::Minting;
use crate::targets::Targets;
use house_state::{Body, DrawAsk, Offer, SiteKind, Trade, Unlawful, body_of_deed};
use kept_replies::Deed;
use ledger_model::MOST_IN_FORCE;
use mc_base::{Amount, Moment, NoMemory};
use mc_records::Record;
use mc_requests::{Limits, Refusal};
use name_places::NamePlaces;
use std::alloc::Global;

/// What a target sells: its price, the kind of its contents, below 3, and how many bytes they have.
#[derive(Clone, Copy, Drop)]
pub struct OnSale {
    pub price: u64,
    pub kind: u8,
    pub length: u64,
}

/// The trade of a vendor: its goods by their targets, the issuers whose scrip it takes, and what it minted
/// by the references. Goods and mints are found in a few looks, however many there are; there are at most 255
/// issuers. It owns the contents of its goods. Those that were replaced stay until `forget` lets them go.
#[derive(Drop)]
pub struct Shelf {
    catalogue: Catalogue,
    /// The targets of the goods.
    targets: Targets,
    issuers: Vec<u8>,
    mints: Vec<Minting>,
    /// Where among the mints that of each reference stands.
    references: NamePlaces,
    /// How many bytes of contents are on sale.
    in_force: u64,
    /// What the next Goods entry puts on sale.
    next_article: Option<Article>,
    alloc: Global,
}

impl Shelf {
    ghost use Rattle.ledger_model.specs.Goods.{goods_targets};
    ghost use Rattle.vendor_core.specs.Editions.{goods_entry, IsInRange};
    ghost use Rattle.vendor_core.specs.Catalogue.{HasRoomAt};
    ghost use Rattle.vendor_core.specs.Shelf.{ShelfRepresents, on_sale_in, HasGoods, HasRoomForMint, IsMinting, AreGoods};

    /// The shelf of an empty history. It takes no memory.
    pub fn new(alloc: Global) -> Shelf
        ensures { ShelfRepresents result [] }
    {
        Shelf {
            catalogue: Catalogue::new(alloc),
            targets: Targets::new(alloc),
            issuers: Vec::new(alloc),
            mints: Vec::new(alloc),
            references: NamePlaces::new(alloc),
            in_force: 0,
            next_article: None,
            alloc,
        }
    }

    /// How many bytes of contents are on sale once a target sells these.
    pub(crate) fn in_force_with(&self, target: &[u8], contents: &[u8]) -> u64
        requires { length contents.now ≤ MOST_CONTENTS }
        ensures { (h : History) (m price kind : ℕ) → ShelfRepresents self.now h
            → result ≡ goods.in_force (h ++ Goods m target.now price kind contents.now ∷ []) }
    {
        let others = self
            .in_force
            .saturating_sub(self.catalogue.bytes_at(target));
        others.saturating_add(contents.len() as u64)
    }

    /// The goods on sale at a target, of which the shelf has the contents.
    pub(crate) fn goods(&self, target: &[u8]) -> Option<Body<'_>>
        ensures range { IfSome result AreContents }
        ensures goods { (h : History) → ShelfRepresents self.now h → AreGoods h target.now result }
    {
        match self.catalogue.sold(target) {
            Some((_, edition)) => Some(edition.body()),
            None => None,
        }
    }

    /// The targets at which goods are on sale, in the order in which each was put on sale first.
    pub fn targets(&self) -> &[Vec<u8>]
        ensures { (h : History) → ShelfRepresents self.now h
            → map (λ t. t.items) result.now ≡ goods_targets h }
    {
        self.targets.all()
    }

    /// What a target sells; None exactly where it sells nothing.
    pub fn on_sale(&self, target: &[u8]) -> Option<OnSale>
        ensures { (h : History) → ShelfRepresents self.now h → result ≡ on_sale_in h target.now }
    {
        match self.catalogue.sold(target) {
            Some((_, edition)) => Some(edition.on_sale()),
            None => None,
        }
    }

    /// How many bytes of contents are on sale.
    pub fn bytes_on_sale(&self) -> u64
        ensures { (h : History) → ShelfRepresents self.now h → result ≡ goods.in_force h }
    {
        self.in_force
    }

    /// What was minted under a reference; None exactly where the reference is new.
    pub(crate) fn minted(&self, reference: &[u8]) -> Option<Minting>
        ensures { (h : History) → ShelfRepresents self.now h → IsMinting h reference.now result }
    {
        match self.references.get(reference) {
            Some(place) => self.mints.get(place).copied(),
            None => None,
        }
    }

    /// Learns the Goods entry of a number, for which there is room.
    fn learn_goods(&mut self, number: u64, target: &[u8], contents: &[u8]) -> Result<(), Unlawful>
        requires place { HasRoomAt self.old.catalogue target.now }
        requires target { self.old.targets.next ≡ Some target.now }
        requires ready { IsSome self.old.next_article }
        requires range { IfSome self.old.next_article IsInRange }
        requires short { length contents.now ≤ MOST_CONTENTS }
        ensures held { (n : ℕ) → HasGoods self.old n → HasGoods self.new n }
        ensures goods { OnOk result (HasGoods self.new number) }
        ensures learned { OnOk result ((h : History) (m price kind : ℕ) → ShelfRepresents self.old h
            → number ≡ length h
            → option_map (goods_entry m target.now) self.old.next_article
            ≡ Some (Goods m target.now price kind contents.now)
            → ShelfRepresents self.new (h ++ Goods m target.now price kind contents.now ∷ [])) }
        ensures exact { (h : History) (m price kind : ℕ) → ShelfRepresents self.old h
            → IsOk result ↔ (goods.in_force (h ++ Goods m target.now price kind contents.now ∷ []) ≤ MOST_IN_FORCE) }
        ensures same { OnErr result ((h : History) → ShelfRepresents self.old h
            → ShelfRepresents self.new h) }
    {
        let bytes = self.in_force_with(target, contents);
        if bytes > MOST_IN_FORCE {
            return Err(Unlawful);
        }
        let article = self.next_article.take().unwrap();
        let is_new = self.catalogue.sold(target).is_none();
        self.targets.list(is_new);
        self.catalogue.put(target, number, article);
        self.in_force = bytes;
        Ok(())
    }

    /// Learns a Mint entry, for which there is room.
    fn learn_mint(&mut self, reference: &[u8], minting: Minting) -> Result<(), Unlawful>
        requires room { HasRoomForMint self.old reference.now }
        ensures held { (n : ℕ) → HasGoods self.old n → HasGoods self.new n }
        ensures learned { OnOk result ((h : History) (m : ℕ) → ShelfRepresents self.old h
            → minting.number ≡ length h
            → ShelfRepresents self.new (h ++ Mint m reference.now minting.count minting.value minting.first ∷ [])) }
        ensures exact { (h : History) → ShelfRepresents self.old h
            → IsOk result ↔ IsFalse (has_reference h reference.now) }
        ensures same { OnErr result ((h : History) → ShelfRepresents self.old h
            → ShelfRepresents self.new h) }
    {
        if self.references.get(reference).is_some() {
            return Err(Unlawful);
        }
        self.references.put(self.mints.len());
        self.mints.push_reserved(minting);
        Ok(())
    }
}

impl Trade for Shelf {
    ghost use Rattle.house_state.specs.Learning.{untested};
    ghost use Rattle.vendor_core.specs.Shelf.{shelf_view};

    ghost trade = { shelf_view };

    ghost passes = { untested };

    fn kind(&self) -> SiteKind {
        SiteKind::Vendor
    }

    fn price(&self, target: &[u8]) -> Option<u64> {
        match self.catalogue.sold(target) {
            Some((_, edition)) => Some(edition.price()),
            None => None,
        }
    }

    fn offer(
        &self,
        _time: Moment,
        _limits: Limits,
        target: &[u8],
        value: Amount,
    ) -> Result<Offer, Refusal> {
        let Some((goods, edition)) = self.catalogue.sold(target) else {
            return Err(Refusal::NoSuchGoods);
        };
        let price = edition.price();
        if value.get() < price {
            return Err(Refusal::TooLittle(price));
        }
        Ok(Offer {
            price,
            deed: Deed::Goods { goods },
        })
    }

    fn draw(&self, _target: &[u8]) -> Option<DrawAsk> {
        None
    }

    fn reserve(&mut self, r: &Record<'_>) -> Result<(), NoMemory> {
        match *r {
            Record::Site { .. } | Record::Terms { .. } => self.issuers.reserve(1)?,
            Record::Goods {
                target,
                price,
                kind,
                contents,
                ..
            } => {
                self.catalogue.reserve(target)?;
                self.targets.reserve(target)?;
                self.next_article = Some(Article::copy_of(self.alloc, price, kind, contents)?);
            }
            Record::Mint { reference, .. } => {
                self.mints.reserve(1)?;
                self.references.reserve(reference)?;
            }
            _ => (),
        }
        Ok(())
    }

    fn learn(&mut self, number: u64, r: &Record<'_>) -> Result<(), Unlawful> {
        match *r {
            Record::Site { house, .. } => {
                if let Some(house) = house {
                    self.issuers.push_reserved(house.terms.issuer());
                }
                Ok(())
            }
            Record::Terms { terms, .. } => {
                let issuer = terms.issuer();
                if self.issuers.contains(&issuer) {
                    return Err(Unlawful);
                }
                self.issuers.push_reserved(issuer);
                Ok(())
            }
            Record::Goods {
                target,
                contents,
                ..
            } => self.learn_goods(number, target, contents),
            Record::Mint {
                reference,
                count,
                value,
                first,
                ..
            } => {
                let minting = Minting {
                    number,
                    count,
                    value,
                    first,
                };
                self.learn_mint(reference, minting)
            }
            Record::Accept { .. }
            | Record::Draw { .. }
            | Record::Upgrade { .. }
            | Record::Switch { .. }
            | Record::Note { .. } => Ok(()),
            _ => Err(Unlawful),
        }
    }

    fn body<'a>(&'a self, deed: &Deed, room: &'a mut [u8; 512]) -> Body<'a> {
        let Deed::Goods { goods } = *deed else {
            return body_of_deed(deed, room);
        };
        match self.catalogue.edition(goods) {
            Some(edition) => edition.body(),
            None => body_of_deed(deed, room),
        }
    }

    fn forget(&mut self, kept_from: Option<u64>) {
        self.catalogue.forget(kept_from);
    }

    ghost switch_room = { λ a m c. tt };
}
