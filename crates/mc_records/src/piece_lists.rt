//! Readers of the two kinds of entry that hold a list of pieces.

ghost use Rattle.std.specs.Prelude.{◌≤◌};
ghost use Rattle.mc_fields.specs.Form.{run, repeated};
ghost use Rattle.mc_fields.specs.Gives.{Gives};
ghost use Rattle.mc_records.specs.Forms.{held_form, pieces_form, stock_form, got_pieces_form};
ghost use Rattle.mc_records.specs.PieceViews.{pieces_of};
ghost use Rattle.mc_records.specs.Views.{entry};

use crate::listing::behind;
use crate::parts::name;
use crate::piece_list::PieceList;
use crate::ranges::MOST_PIECES;
use crate::record::Record;
use mc_base::Moment;
use mc_fields::{Stuck, read_u16};

/// The list of so many elements.
fn elements(count: u16, bytes: &[u8]) -> Result<(PieceList<'_>, &[u8]), Stuck>
    requires some { 1 ≤ count }
    requires few { count ≤ MOST_PIECES }
    ensures { Gives (λ x. (pieces_of x.0, x.1.now)) result (run (repeated count held_form) bytes.now) }
{
    let rest = behind(count, bytes)?;
    let used = bytes.len().saturating_sub(rest.len());
    Ok((PieceList::of(&bytes[..used], count), rest))
}

/// A list of pieces behind their number.
#[tactic(auto, unfolding(crate::specs::Forms::pieces_form))]
fn pieces(bytes: &[u8]) -> Result<(PieceList<'_>, &[u8]), Stuck>
    ensures { Gives (λ x. (pieces_of x.0, x.1.now)) result (run pieces_form bytes.now) }
{
    let (count, rest) = read_u16(bytes, 1, MOST_PIECES)?;
    elements(count, rest)
}

#[tactic(auto, unfolding(crate::specs::Forms::stock_form), using(mc_fields::proofs::FormLaws::behind))]
pub(crate) fn read_stock(moment: Moment, bytes: &[u8]) -> Result<(Record<'_>, &[u8]), Stuck>
    ensures { Gives (λ x. (entry x.0, x.1.now)) result (run (stock_form moment) bytes.now) }
{
    let (vendor, rest) = name(bytes)?;
    let (pieces, rest) = match pieces(rest) {
        Ok(found) => found,
        Err(stuck) => return Err(stuck),
    };
    let record = Record::Stock {
        moment,
        vendor,
        pieces,
    };
    Ok((record, rest))
}

#[tactic(auto, unfolding(crate::specs::Forms::got_pieces_form), using(mc_fields::proofs::FormLaws::behind))]
pub(crate) fn read_got_pieces(moment: Moment, bytes: &[u8]) -> Result<(Record<'_>, &[u8]), Stuck>
    ensures { Gives (λ x. (entry x.0, x.1.now)) result (run (got_pieces_form moment) bytes.now) }
{
    match pieces(bytes) {
        Ok((pieces, rest)) => Ok((Record::Got { moment, pieces }, rest)),
        Err(stuck) => Err(stuck),
    }
}
