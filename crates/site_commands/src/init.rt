//! Founding a site in a book.

ghost use Rattle.std.specs.Prelude.{◌≡◌, [], List, ℕ, Some};
ghost use Rattle.ledger_model.specs.Lawful.{MayFollow};
ghost use Rattle.house_state.specs.Views.{kind_number};
ghost use Rattle.house_state.specs.declared.offer.SiteKind.TheVariants.{Vendor};
ghost use Rattle.site_commands.specs.Founding.{site_of};
ghost use Rattle.site_commands.specs.Init.{FoundsBook, InitCauses};
ghost use Rattle.operator_command.specs.Operations.{full};
ghost use Rattle.command_status.specs.Statuses.{number_of};

use crate::founder::site;
use command_status::{Status, not_opened};
use house_opening::found_house;
use house_state::Trade;
use mc_outside::{Link, Outside};
use mc_records::{PieceList, SiteTerms};
use mc_requests::Limits;
use site_words::Founder;
use std::alloc::Global;

/// Founds a site of the trade's kind in the book on the outside's disk, at the reading of the clock. The trade
/// has learned nothing yet, the ledger lets the site be founded, and a vendor has no fee. Hands the outside back,
/// and tells how it ended.
pub fn found_book<O: Outside, T: Trade>(
    alloc: Global,
    founder: &Founder,
    trade: T,
    mut out: O,
) -> (O, Status)
    requires trade { (T.trade trade).represents [] }
    requires first { (moment : ℕ)
        → MayFollow full [] (site_of (T.trade trade).site founder.now moment) }
    requires fee { (T.trade trade).site ≡ kind_number Vendor → founder.now.fee ≡ 0 }
    ensures words { number_of result.1 ≡ 2 → ⊥ }
    ensures causes { InitCauses O.link O.disk out result.1 result.0 }
    ensures founded { (x : List ℕ) → (O.disk out).contents ≡ Some x
        → FoundsBook O.link O.disk (T.trade trade).site founder.now x out result.1 result.0 }
{
    let _parts: Option<(PieceList<'_>, SiteTerms<'_>)> = None;
    let kind = trade.kind();
    let moment = out.now();
    let site = site(founder, kind, moment);
    match found_house(alloc, out, Limits::FULL, trade, &site) {
        Ok(house) => (house.close(), Status::Founded(*founder.name())),
        Err(fault) => not_opened(fault),
    }
}
