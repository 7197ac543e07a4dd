//! What a wallet asks for, and the entry of it.

ghost use Rattle.std.specs.Prelude.{◌≡◌, IfOk};
ghost use Rattle.std.specs.Result.{result_map_both};
ghost use Rattle.mc_fields.specs.Puts.{Appends};
ghost use Rattle.mc_requests.specs.Errands as errands;
ghost use Rattle.mc_requests.specs.Errands.{errand_text};
ghost use Rattle.mc_records.specs.Views.{entry};
ghost use Rattle.wallet_model.specs.Asks.{pend_entry};
ghost use Rattle.wallet_model.specs.Asks as model;
ghost use Rattle.slow_wallet.specs.Choices.{asking_view, target_of};

use crate::choice::slow_chosen;
use itoa::Buffer;
use mc_base::{Moment, NoMemory};
use mc_fields::append_both;
use mc_records::{PieceList, Record};
use mc_requests::Refusal;
use slow_ledger::Prefix;
use std::alloc::{AllocError, Global};

/// What is asked: goods of a vendor; scrip of a vendor, for scrip of a broker; or scrip of a broker out of an
/// account, under its key and an order. A limit is the least that the piece that pays is worth.
#[derive(Clone, Copy, Drop)]
pub enum Asking<'a> {
    Get {
        vendor: &'a [u8],
        target: &'a [u8],
        limit: u64,
    },
    Buy {
        broker: &'a [u8],
        vendor: &'a [u8],
        amount: u64,
        limit: u64,
    },
    Draw {
        broker: &'a [u8],
        account: &'a [u8],
        key: [u8; 16],
        order: u64,
        amount: u64,
    },
}

fn write_buy(out: &mut Vec<u8>, vendor: &[u8], amount: u64) -> Result<(), AllocError>
    ensures { Appends out.old.items out.new.items (errand_text (errands.buy vendor.now amount)) result }
{
    append_both(out, b"/buy/", vendor)?;
    append_both(out, b"/", Buffer::new().format(amount).as_bytes())
}

fn write_draw(out: &mut Vec<u8>, account: &[u8], order: u64, amount: u64) -> Result<(), AllocError>
    ensures { Appends out.old.items out.new.items (errand_text (errands.draw account.now order amount)) result }
{
    append_both(out, b"/draw/", account)?;
    append_both(out, b"/", Buffer::new().format(order).as_bytes())?;
    append_both(out, b"/", Buffer::new().format(amount).as_bytes())
}

/// The target of what is asked.
pub fn slow_target(alloc: Global, asking: &Asking<'_>) -> Result<Vec<u8>, NoMemory>
    ensures { IfOk result (λ v. v.items ≡ target_of (asking_view asking.now)) }
{
    let mut out = Vec::new(alloc);
    match *asking {
        Asking::Get { target, .. } => out.extend_from_slice(target)?,
        Asking::Buy { vendor, amount, .. } => write_buy(&mut out, vendor, amount)?,
        Asking::Draw {
            account,
            order,
            amount,
            ..
        } => write_draw(&mut out, account, order, amount)?,
    }
    Ok(out)
}

/// The Pend entry of what is asked at a time under its target, by the definitions; else 62 NoFunds, with the
/// greatest value that could be spent.
pub fn slow_pend_entry<'a>(
    h: &'a Prefix<'_>,
    moment: Moment,
    asking: &Asking<'a>,
    target: &'a [u8],
) -> Result<Record<'a>, Refusal>
    requires { target.now ≡ target_of (asking_view asking.now) }
    ensures { result_map_both entry (λ f. f) result ≡ pend_entry h.now moment (asking_view asking.now) }
{
    let _parts: Option<PieceList<'_>> = None;
    match *asking {
        Asking::Get { vendor, limit, .. } => paid(h, moment, 0, vendor, target, limit),
        Asking::Buy { broker, limit, .. } => paid(h, moment, 1, broker, target, limit),
        Asking::Draw { broker, key, .. } => Ok(Record::Pend {
            moment,
            ask: 2,
            peer: broker,
            target,
            scrip: None,
            secret: key,
        }),
    }
}

/// The Pend entry of a request that pays with the piece that is chosen.
fn paid<'a>(
    h: &'a Prefix<'_>,
    moment: Moment,
    ask: u8,
    peer: &'a [u8],
    target: &'a [u8],
    limit: u64,
) -> Result<Record<'a>, Refusal>
    ensures { result_map_both entry (λ f. f) result
        ≡ model.paid_with moment ask peer.now target.now (model.chosen h.now moment peer.now limit) }
{
    let _parts: Option<PieceList<'_>> = None;
    match slow_chosen(h, moment, peer, limit) {
        Ok(offer) => {
            let scrip = Some(offer.holding.text);
            let secret = offer.holding.secret;
            Ok(Record::Pend {
                moment,
                ask,
                peer,
                target,
                scrip,
                secret,
            })
        }
        Err(refusal) => Err(refusal),
    }
}
