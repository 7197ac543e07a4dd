//! The lines of minted pieces.

ghost use Rattle.std.specs.Prelude.{◌≡◌, ◌++◌, ◌<◌, ◌≤◌, ◌+◌, ◌^◌, OnOk, OnErr, [], Some};
ghost use Rattle.scrip_form.specs.Identities.{series_of};
ghost use Rattle.scrip_form.specs.Issuing.{Issuing};
ghost use Rattle.scrip_form.specs.Scrip.{IsVersion};
ghost use Rattle.ledger_model.specs.Histories.{History};
ghost use Rattle.ledger_model.specs.Houses as ledger;
ghost use Rattle.ledger_model.specs.Houses.{site_name, terms_in, version};
ghost use Rattle.ledger_model.specs.Pieces.{first_hand, run_from};
ghost use Rattle.house_core.specs.House.{HouseRepresents};
ghost use Rattle.vendor_core.specs.Lines.{own_line, piece_lines};
ghost use Rattle.vendor_core.specs.Shelf.{shelf_view};

use crate::shelf::Shelf;
use house_core::House;
use house_state::put_piece_line;
use mc_base::{Amount, NoMemory};
use mc_outside::Disk;
use scrip_form::{Id, Name, Piece, Terms};

/// Puts the lines of so many pieces of a value into an empty list, with identities that follow the first, as
/// the house makes them now. After an `Err` the list is empty.
pub(crate) fn put_lines<D: Disk>(
    house: &House<D, Shelf>,
    first: Id,
    count: u16,
    value: Amount,
    out: &mut Vec<u8>,
) -> Result<(), NoMemory>
    requires value { 0 < value }
    requires empty { out.old.items ≡ [] }
    ensures lines { OnOk result ((h : History) (terms : Issuing)
        → HouseRepresents D.disk shelf_view house.now h → terms_in h 0 ≡ Some terms → first + count ≤ 2 ^ 64
        → out.new.items ≡ piece_lines (version h (site_name h)) terms (run_from h value first count)) }
    ensures empty { OnErr result (out.new.items ≡ []) }
{
    let name = house.name();
    let terms = house.own_terms();
    for i in 0..count {
        let id = Id::of_number(first.number().saturating_add(u64::from(i)));
        let (issuer, epoch, _) = id.parts();
        let version = house.version(issuer, epoch);
        match put_line(house, &new_piece(name, terms, version, id, value), out) {
            Ok(()) => (),
            Err(NoMemory) => {
                out.clear();
                return Err(NoMemory);
            }
        }
    }
    Ok(())
}

/// The piece of an identity whose series is of this version, as it is first handed out.
fn new_piece(name: Name, terms: Terms, version: u8, id: Id, value: Amount) -> Piece
    requires version { IsVersion version }
    requires some { 0 < value }
    ensures { (h : History) → site_name h ≡ name → terms_in h 0 ≡ Some terms
        → ledger.version h (site_name h) (series_of id) ≡ version → result ≡ first_hand h value id }
{
    let (_, epoch, _) = id.parts();
    let expires = terms.series_end(epoch);
    Piece::first_hand(version, name, value, id, expires).unwrap()
}

/// Puts the line of a piece of the house's own behind what a list has. After an `Err` the list is as it was.
fn put_line<D: Disk>(
    house: &House<D, Shelf>,
    piece: &Piece,
    out: &mut Vec<u8>,
) -> Result<(), NoMemory>
    ensures { OnOk result ((h : History) (terms : Issuing)
        → HouseRepresents D.disk shelf_view house.now h → terms_in h 0 ≡ Some terms
        → out.new.items ≡ out.old.items ++ own_line (version h (site_name h)) terms piece.now) }
{
    let cert = house.own_certificate(piece);
    let secret = house.own_secret(piece.cust());
    let mut line = [0; 512];
    let len = put_piece_line(&mut line, piece, &cert, &secret);
    out.extend_from_slice(&line[..len])?;
    Ok(())
}
