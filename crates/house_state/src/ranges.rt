//! The parts of an Accept entry and of a Draw entry are in their ranges. Each function reads a part, and does no more.

ghost use Rattle.std.specs.Prelude.{IfSome};
ghost use Rattle.scrip_form.specs.Texts.{IsTarget};
ghost use Rattle.mc_records.specs.Entry.{Fits, IsKey, IsLong, DeedFits};
ghost use Rattle.house_state.specs.Views.{entry_deed};
ghost use Rattle.house_state.specs.Verdicts.{accept_entry, draw_entry};

use crate::verdict::{Authorization, DrawAuthorization};
use kept_replies::Deed;
use mc_base::Moment;
use scrip_form::Id;

/// The entry of an authorization for a target that may be asked for has a payload.
pub fn authorization_fits(time: Moment, target: &[u8], a: &Authorization<'_, '_>)
    ensures { IsTarget target.now → Fits (accept_entry time target.now a.now) }
{
    let _seconds = time.seconds();
    let _text = a.scrip.text();
    let _price = a.price;
    keys(&a.sign);
    longs(&a.change);
    deeds(&a.deed);
}

/// And so has that of a draw.
pub fn draw_fits(time: Moment, target: &[u8], d: &DrawAuthorization)
    ensures { IsTarget target.now → Fits (draw_entry time target.now d.now) }
{
    let _seconds = time.seconds();
    let _first = d.sign[0];
    let _number = d.id.number();
}

/// A signature that may be there has 16 bytes.
fn keys(sign: &Option<[u8; 16]>)
    ensures { IfSome sign.now IsKey }
{
    match sign {
        Some(sign) => {
            let _first = sign[0];
        }
        None => (),
    }
}

/// An identity that may be there has 8 bytes.
fn longs(change: &Option<Id>)
    ensures { IfSome change.now IsLong }
{
    match change {
        Some(id) => {
            let _number = id.number();
        }
        None => (),
    }
}

/// The numbers of a deed have 8 bytes.
fn deeds(deed: &Deed)
    ensures { DeedFits (entry_deed deed.now) }
{
    match deed {
        Deed::Goods { .. } => (),
        Deed::Sale { piece, .. } | Deed::Draw { piece, .. } => {
            let _number = piece.id().number();
        }
        Deed::Credit { balance } => {
            let _balance = *balance;
        }
    }
}
