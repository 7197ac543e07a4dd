//! The entry by which a reply settles a request.

ghost use Rattle.std.specs.Prelude.{◌≡◌, ◌++◌, IfOk, option_map, option_to_list};
ghost use Rattle.mc_requests.specs.Requests.{seen};
ghost use Rattle.mc_records.specs.Views.{entry, held_of};
ghost use Rattle.wallet_model.specs.Holdings.{texts_came};
ghost use Rattle.wallet_model.specs.Settling as model;
ghost use Rattle.reply_reader.specs.Seen.{received_of};
ghost use Rattle.wallet_core.specs.Requests.{request_view};

use crate::newness::slow_is_new;
use crate::replies::one_line;
use mc_base::{Moment, NoMemory};
use mc_records::{PieceList, Record};
use reply_reader::ReplyRef;
use slow_ledger::Prefix;
use std::alloc::Global;
use wallet_core::{RequestRef, is_dash, paid_price, refusal_number};

/// The change of a reply, where it is new to a book.
fn change_came<'a>(h: &Prefix<'_>, change: &'a [u8]) -> Option<&'a [u8]>
    ensures { seen result ≡ model.change_came (texts_came h.now) change.now }
{
    if is_dash(change) {
        return None;
    }
    if slow_is_new(h, None, change) {
        Some(change)
    } else {
        None
    }
}

/// A piece, where it is new to a book and to the change.
fn if_new<'a>(
    h: &Prefix<'_>,
    change: Option<&[u8]>,
    got: Option<(&'a [u8], [u8; 16])>,
) -> Option<(&'a [u8], [u8; 16])>
    ensures { option_map held_of result
        ≡ model.if_new (option_to_list (seen change.entry) ++ texts_came h.now) (option_map held_of got.entry) }
{
    match got {
        Some(piece) => if slow_is_new(h, change, piece.0) {
            got
        } else {
            None
        },
        None => None,
    }
}

/// The piece in the contents of a buy or a draw.
fn contents_came<'a>(
    alloc: Global,
    ask: u8,
    contents: &'a [u8],
) -> Result<Option<(&'a [u8], [u8; 16])>, NoMemory>
    ensures { IfOk result (λ o. option_map held_of o ≡ model.contents_came ask contents.now) }
{
    if ask == 0 {
        return Ok(None);
    }
    one_line(alloc, contents)
}

/// The entry by which a reply settles the request of a number at a time, by the definitions. Want of memory
/// is free.
#[tactic(auto, unfolding(wallet_model::specs::Settling::settlement))]
pub fn slow_settlement<'a>(
    alloc: Global,
    h: &Prefix<'_>,
    moment: Moment,
    number: u64,
    p: &RequestRef<'_>,
    r: &ReplyRef<'a>,
) -> Result<Record<'a>, NoMemory>
    ensures { IfOk result
        (λ e. entry e ≡ model.settlement h.now moment number (request_view p.now) (received_of r.now)) }
{
    let _parts: Option<PieceList<'_>> = None;
    if r.status != 200 {
        let refusal = refusal_number(r.refusal);
        return Ok(Record::Refused {
            moment,
            number,
            refusal,
        });
    }
    let price = paid_price(r);
    let change = change_came(h, r.change);
    let piece = contents_came(alloc, p.ask, r.contents)?;
    let got = if_new(h, change, piece);
    Ok(Record::Done {
        moment,
        number,
        price,
        change,
        got,
    })
}
