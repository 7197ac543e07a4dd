//! What is sold of a vendor, by his stall.

ghost use Rattle.std.specs.Prelude.{◌≡◌, ◌<◌, ◌≤◌, ◌^◌, ℕ, List, Some, Ok, false, IfOk, IfErr};
ghost use Rattle.scrip_form.specs.Issuing.{HasPeriod, series_at};
ghost use Rattle.scrip_form.specs.Scrip.{IsPiece, IsVersion};
ghost use Rattle.mc_requests.specs.Errands.{buy, errand_of};
ghost use Rattle.ledger_model.specs.Histories.{History};
ghost use Rattle.ledger_model.specs.Houses.{version_by};
ghost use Rattle.ledger_model.specs.Stock.{licence_in, licensed_count, knows_vendor, for_sale, licensed_piece};
ghost use Rattle.ledger_model.specs.Lines.{as_line};
ghost use Rattle.ledger_model.specs.Stages.{supplied};
ghost use Rattle.broker_stalls.specs.Listed.{piece_in_stock};
ghost use Rattle.broker_stalls.specs.Shown.{Shows};
ghost use Rattle.house_state.specs.Replying.{IsOfSite};
ghost use Rattle.house_state.specs.Trade.{BringsFor};
ghost use Rattle.house_state.specs.Views.{entry_deed};
ghost use Rattle.broker_core.specs.Moves.{moves_of, MovesRepresent};
ghost use Rattle.broker_core.specs.Sales.{IsSale, IsLicensed, sale_of_next, licensed_deed, stock_deed};

use crate::moves::Moves;
use broker_stalls::{Purchase, Stall, StockPiece};
use kept_replies::Deed;
use mc_base::Moment;
use mc_requests::{Limits, Refusal};
use scrip_certs::{certificate_of, customer_secret};
use scrip_form::{Id, Piece, Terms};

/// What is sold of a vendor, whose stall this is: the next piece under his licence, or else the first one of his
/// stock that is for sale.
pub(crate) fn sold_from(
    stall: &Stall,
    moves: &Moves,
    time: Moment,
    limits: Limits,
    asked: &Purchase,
) -> Result<Deed, Refusal>
    requires some { 0 < asked.now.value }
    requires limit { limits.series ≤ 2 ^ 32 }
    ensures deed { (h : History) → Shows h asked.now.vendor stall.now
        → as_line entry_deed result ≡ supplied limits.series time asked.now.value
        (licence_in h asked.now.vendor) (licensed_count h asked.now.vendor)
        (knows_vendor h asked.now.vendor) (for_sale h time asked.now.vendor asked.now.value) }
    ensures brings { (h : History) (target : List ℕ) → Shows h asked.now.vendor stall.now
        → MovesRepresent moves.now h → errand_of target ≡ Some (buy asked.now.vendor asked.now.value)
        → IfOk result (BringsFor h target) }
    ensures site { IfErr result IsOfSite }
    ensures sale { IfOk result IsSale }
{
    match stall.licence() {
        Some(terms) => {
            let count = stall.count(terms.series_at(time));
            return sold_under(terms, moves, count, time, limits, asked);
        }
        None => (),
    }
    if !stall.is_known() {
        return Err(Refusal::NoVendor);
    }
    match stall.first(asked.value, time) {
        Some(piece) => sold_out_of_stock(&piece, asked),
        None => Err(Refusal::NoStock(asked.value.get())),
    }
}

/// The next piece under a licence, of which this many were sold in the series of the moment, in the version of its
/// series.
fn sold_under(
    terms: &Terms,
    moves: &Moves,
    count: u64,
    time: Moment,
    limits: Limits,
    asked: &Purchase,
) -> Result<Deed, Refusal>
    requires period { HasPeriod terms.now.period terms.now.life }
    requires limit { limits.series ≤ 2 ^ 32 }
    requires some { 0 < asked.now.value }
    ensures deed { as_line entry_deed result
        ≡ sale_of_next limits.series (series_at terms.now time) count }
    ensures made { IfOk result (IsLicensed terms.now
        (version_by (moves_of moves.now.moved asked.now.vendor)) asked.now.vendor asked.now.value) }
    ensures site { IfErr result IsOfSite }
{
    let series = terms.series_at(time);
    if limits.series <= count {
        return Err(Refusal::SeriesFull(u64::from(series)));
    }
    let id = Id::of_number(u64::from(series) * (1 << 32) + count);
    let version = moves.version(asked.vendor.bytes(), id.series());
    Ok(licensed_sale(terms, licensed_piece(terms, version, asked, id)))
}

/// The piece of an identity that is made under a licence in a version.
fn licensed_piece(terms: &Terms, version: u8, asked: &Purchase, id: Id) -> Piece
    requires period { HasPeriod terms.now.period terms.now.life }
    requires version { IsVersion version }
    requires some { 0 < asked.now.value }
    ensures { result ≡ licensed_piece version terms.now asked.now.vendor asked.now.value id }
{
    let (_, epoch, _) = id.parts();
    let expires = terms.series_end(epoch);
    Piece::first_hand(version, asked.vendor, asked.value, id, expires).unwrap()
}

/// The sale of a piece that is made under a licence, with its certificate and the secret of its customer, whose identity
/// is its own.
fn licensed_sale(terms: &Terms, piece: Piece) -> Deed
    ensures { result ≡ licensed_deed terms.now piece }
{
    Deed::Sale {
        piece,
        cert: certificate_of(terms, &piece),
        secret: customer_secret(terms, piece.cust(), piece.version()),
        stock: false,
    }
}

/// The sale of a piece in stock.
fn sold_out_of_stock(piece: &StockPiece, asked: &Purchase) -> Result<Deed, Refusal>
    ensures sold { IsPiece (piece_in_stock asked.now.vendor asked.now.value piece.now)
        → result ≡ Ok (stock_deed asked.now.vendor asked.now.value piece.now) }
    ensures site { IfErr result IsOfSite }
    ensures sale { IfOk result IsSale }
{
    match piece_in_stock(piece, asked) {
        Some(sold) => Ok(Deed::Sale {
            piece: sold,
            cert: piece.cert,
            secret: piece.secret,
            stock: true,
        }),
        // What is in stock is a piece.
        None => Err(Refusal::NoStock(asked.value.get())),
    }
}

/// The piece that stands so in stock, in the version of its text.
fn piece_in_stock(piece: &StockPiece, asked: &Purchase) -> Option<Piece>
    ensures { IsPiece (piece_in_stock asked.now.vendor asked.now.value piece.now)
        → result ≡ Some (piece_in_stock asked.now.vendor asked.now.value piece.now) }
{
    let id = Id::of_number(piece.id);
    Piece::first_hand(piece.version, asked.vendor, asked.value, id, piece.expires)
}
