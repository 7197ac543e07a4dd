//! What a vendor's operator has done to its book, as a command over the house of the book.

ghost use Rattle.std.specs.Prelude.{◌≡◌, ℕ, List as Items};
ghost use Rattle.ledger_model.specs.Histories.{History};
ghost use Rattle.ledger_model.specs.Houses.{site_name};
ghost use Rattle.house_core.specs.Bench.{limits_of};
ghost use Rattle.house_core.specs.House.{HandsBack, HouseRepresents, IfRefused, KeepsTime};
ghost use Rattle.house_core.specs.Refusing.{IsAmong};
ghost use Rattle.vendor_core.specs.Shelf.{shelf_view};
ghost use Rattle.operator_command.specs.Operations.{CarriesOut, full};
ghost use Rattle.vendor_commands.specs.Operations.{operation_view, begins};

use crate::goods::list_goods;
use crate::licence::take_issuer;
use crate::lines;
use crate::list::list_on_sale;
use crate::mint::mint_pieces;
use crate::price::price_goods;
use crate::status::tell_status;
use crate::upgrade::move_issuer;
use house_core::{House, Outcome};
use mc_base::NoMemory;
use mc_outside::Disk;
use mc_records::MOST_CONTENTS;
use operator_command::{OperatorCommand, switch_book};
use said_lines::{begin_chain, ready, upgrade_line};
use scrip_form::Name;
use site_words::Operation;
use std::alloc::Global;
use std::marker::Model;
use vendor_core::Shelf;

/// An operation that a vendor's operator has said. Contracts see it as the operation.
#[derive(Drop)]
pub struct VendorOperation<'a> {
    said: &'a Operation<'a>,
}

impl<'a> Model for VendorOperation<'a> {
    ghost use Rattle.site_words.specs.declared.operation.Operation.{Operation as Said};

    ghost Value = { Said };

    ghost view = { λ v. v.said.now };
}

impl<'a> VendorOperation<'a> {
    /// The operation, to be done.
    pub fn of(said: &'a Operation<'a>) -> VendorOperation<'a>
        ensures { result ≡ said.now }
    {
        VendorOperation { said }
    }
}

impl<'a> OperatorCommand<Shelf> for VendorOperation<'a> {
    ghost operation = { operation_view };

    ghost begun = { begins };

    fn input(&self) -> Option<usize> {
        match self.said {
            Operation::Goods(_) => Some(MOST_CONTENTS),
            Operation::Price(_)
            | Operation::Licence(_)
            | Operation::Mint(_)
            | Operation::Upgrade(_)
            | Operation::Chain(_)
            | Operation::List(_)
            | Operation::Status(_) => None,
        }
    }

    fn begin(&self, alloc: Global, site: &Name) -> Result<Vec<u8>, NoMemory> {
        match self.said {
            Operation::Goods(listing) => {
                lines::goods_line(alloc, listing.target(), listing.price())
            }
            Operation::Price(pricing) => {
                lines::goods_line(alloc, pricing.target(), pricing.price())
            }
            Operation::Licence(licensing) => lines::licence_line(alloc, site, &licensing.terms()),
            Operation::Mint(_) => Ok(Vec::new(alloc)),
            Operation::Upgrade(upgrading) => {
                upgrade_line(alloc, site, upgrading.issuer(), upgrading.from())
            }
            Operation::Chain(_) => ready(begin_chain(alloc, site)?),
            Operation::List(_) | Operation::Status(_) => Ok(Vec::new(alloc)),
        }
    }

    fn carry_out<D: Disk>(
        &self,
        house: House<D, Shelf>,
        input: &[u8],
        line: &mut Vec<u8>,
    ) -> Outcome<D, Shelf, ()>
        requires begun { (site : Items ℕ) × begins self.now site line.old.items }
        ensures back { HandsBack D.disk D.disk_moved (KeepsTime house) house.journal.disk result }
        ensures exact { (h : History) → HouseRepresents D.disk shelf_view house h
            → limits_of house.bench ≡ full → begins self.now (site_name h) line.old.items
            → CarriesOut D.disk shelf_view (operation_view self.now) house input.now
            line.new.items h result }
        ensures refusals { IfRefused (IsAmong (operation_view self.now).refusals) result }
    {
        match self.said {
            Operation::Goods(listing) => list_goods(listing, house, input),
            Operation::Price(pricing) => price_goods(pricing, house),
            Operation::Licence(licensing) => take_issuer(licensing, house),
            Operation::Mint(minting) => mint_pieces(minting, house, line),
            Operation::Upgrade(upgrading) => move_issuer(upgrading, house),
            Operation::Chain(_) => switch_book(house, line),
            Operation::List(_) => list_on_sale(house, line),
            Operation::Status(_) => tell_status(house, line),
        }
    }
}
